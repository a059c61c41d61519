#![tactic(auto)]

pub mod kind;
pub mod sums;
pub mod written;
