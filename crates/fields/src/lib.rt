// Rules 2 to 6: the fields of one certificate, and whether its KU has a bit. A module a rule.
#![tactic(auto)]

pub mod key_level;
pub mod key_usage;
pub mod signatures;
pub mod uids;
pub mod validity;
