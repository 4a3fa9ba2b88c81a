// Readers of the two bundles: each asks nothing of the bundle, and gives what the decoding says.
#![tactic(auto)]

pub mod chain;
pub mod policy;
