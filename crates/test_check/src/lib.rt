// The rows of the sheet check are theorems, in specs/.
#![tactic(auto)]
