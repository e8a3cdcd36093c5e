// How many instructions a whole sheet gives and emits stands in specs/; there is no code here.
#![tactic(auto)]
