// The plain book of one client stands in `specs`; `proofs` shows that a client's record and its share of the store stand for that book. There
// is no code here: what runs for one client are `client_reassembly` and `client_offer`.
#![tactic(auto)]
