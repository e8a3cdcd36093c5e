// When an image is well made for its sheet: the definition, a test that computes, and the theorem that the one tells the other.
#![tactic(auto)]
