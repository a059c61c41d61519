#![tactic(auto)]

pub mod ranked;
pub mod size;
