// The options of an encoded list on the wire, laid over a buffer, and the CRC that their APCs carry.
#![tactic(auto)]

pub mod apc;
pub mod wire;
