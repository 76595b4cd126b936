// Document 01's figures to check by hand stand in `specs`; `proofs` shows that the definitions of the public calls' contracts compute to
// them. There is no code here.
#![tactic(auto)]
