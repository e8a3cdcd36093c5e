// Facts of truth values and numbers that several crates use, beside those of the kit: there is no code here.
#![tactic(auto)]
