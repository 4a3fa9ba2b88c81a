// Rules 9 to 12: the parts of one certificate. A module a rule.
#![tactic(auto)]

pub mod ca;
pub mod empty_subject;
pub mod path_length;
pub mod san;
