// The lowering of a Switch as a change of what has been made so far: definitions and laws only.
#![tactic(auto)]
