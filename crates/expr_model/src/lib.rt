// The lowering as a change of what has been made so far: definitions and laws only.
#![tactic(auto)]
