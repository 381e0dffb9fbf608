// The ground floor, what belongs to no section of document 01: refusals, bytes and bits.

#![tactic(auto)]

pub mod bytes;
pub mod refusal;
