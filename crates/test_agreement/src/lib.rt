// Tables of sheets with the oracle's answers stand in specs/; there is no code here.
#![tactic(auto)]
