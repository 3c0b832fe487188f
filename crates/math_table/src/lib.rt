// A face that is read from the bytes of an OpenType MATH table, without copying them.
// Tables are read as the OpenType specification lays them out; docs/math-table.md has our rules.
#![tactic(auto)]

mod coverages;
mod entries;
pub mod found;
pub mod laws;
mod located;
mod locating;
mod runs;
mod shape;
mod shapes;
pub mod tables;
mod words;

pub use found::Found;
pub use tables::{MathTable, Refusal};
