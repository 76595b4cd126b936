// Encoded option lists: document 01's dockets, read and measured. Document 01, "Dockets and the writer".
#![tactic(auto)]

pub mod check;
