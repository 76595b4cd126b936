// What the writer makes stands in `specs`, from document 01, and what the reader says of it; `proofs` shows that each payload is read back. There
// is no code here: `list_wire` and `list_writer` write it.
#![tactic(auto)]
