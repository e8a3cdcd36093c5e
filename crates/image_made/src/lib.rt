// Every image that is lowered is well made: the statement in specs/, its proof in proofs/.
#![tactic(auto)]
