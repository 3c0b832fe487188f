// The choice of a sign: the first variant that fits a target, or else the best stack of parts.
// Generic over any face.
#![tactic(auto)]

pub mod choosing;
mod joints;
pub mod laws;
pub mod levels;
pub mod placing;
pub mod signs;
mod slacks;
pub mod spans;
mod stacks;
mod sums;
mod totals;
mod walks;
mod wanted;

pub use choosing::choose;
pub use levels::level;
pub use placing::{Piece, Pieces};
pub use signs::{Missing, NoSign, Sign};
pub use spans::span;
