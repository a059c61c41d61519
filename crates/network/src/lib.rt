// The mathematics of charts, borders and flows. The functions do nothing: the contract of each is a law.
#![tactic(auto)]

pub mod borders;
pub mod flows;
pub mod history;
pub mod raises;
pub mod searches;
