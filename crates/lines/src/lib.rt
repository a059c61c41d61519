#![tactic(auto)]

pub mod line;
pub mod number;
pub mod split;
