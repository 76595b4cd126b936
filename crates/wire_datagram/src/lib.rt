// Reading one IPv4 UDP payload with the options of RFC 9868.
#![tactic(auto)]

pub mod parts;
pub mod reading;
