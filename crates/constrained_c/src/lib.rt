// Rules 14 and 16 of Chrome. A module a rule.
#![tactic(auto)]

pub mod rule14;
pub mod rule16;
