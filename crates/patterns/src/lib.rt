// Host names, their patterns and constraints, and IP ranges, all over bytes that somebody lends.
#![tactic(auto)]

pub mod address;
pub mod names;
