// The walk over a list of UDP options (RFC 9868 sections 10 to 12).
#![tactic(auto)]

pub mod walk;
