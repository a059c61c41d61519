#![tactic(auto)]

// Examples of what the calls answer, run by the gate.
#[cfg(test)]
mod addition_tests;
#[cfg(test)]
mod price_tests;
#[cfg(test)]
mod refusal_tests;
#[cfg(test)]
mod search_tests;
