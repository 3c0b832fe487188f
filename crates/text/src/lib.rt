// Lines, fields and numbers in any bytes.
#![tactic(auto)]

mod cuts;
pub mod laws;
mod lines;
mod numbers;

pub use cuts::cut;
pub use lines::{Lines, next_line};
pub use numbers::number;

#[cfg(test)]
mod tests;
