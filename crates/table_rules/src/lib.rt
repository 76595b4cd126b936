// What the calls on a table make of records and store stands in `specs`, from document 01, and the claim about every list of calls and all clients;
// `proofs` shows it. There is no code here: `table_calls` runs.
#![tactic(auto)]
