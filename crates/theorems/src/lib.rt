// No code: what is proved of the operations, on a page (specs/Theorems.antt).
#![tactic(auto)]
