// Layers: each is a face over any faces. A fault from below goes up whole through every layer.
#![tactic(auto)]

pub mod cap;
pub mod fallback;
pub mod laws;
pub mod scale;

pub use cap::Cap;
pub use fallback::Fallback;
pub use scale::Scale;
