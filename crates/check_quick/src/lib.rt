// The check of a sheet in a form that computes faster, with its theorem, in specs/.
#![tactic(auto)]
