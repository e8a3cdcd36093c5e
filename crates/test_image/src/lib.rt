// The image check at its boundaries, computed by the prover: a table in specs/, its theorem in proofs/.
#![tactic(auto)]
