// Worked examples: as theorems on the definitions, and as tests that run.
#![tactic(auto)]

pub mod layered;
pub mod sample;
#[cfg(test)]
mod tests;
