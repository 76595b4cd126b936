#![tactic(auto)]

// Tests in order, and laws of choices by a test, for every crate above. There is no code here.
