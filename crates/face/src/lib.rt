// A face: what a font offers for a sign that stretches.
// Types, the trait `Face` and its meaning. Nothing here reads bytes.
#![tactic(auto)]

pub mod bounds;
mod clamping;
pub mod entries;
pub mod faces;
pub mod faults;
pub mod keys;
pub mod known;
pub mod looks;
pub mod offers;
pub mod parts;
pub mod variants;

pub use bounds::LARGEST;
pub use entries::{Entries, Entry};
pub use faces::Face;
pub use faults::{Cause, Fault, Layer};
pub use keys::{Axis, Key, NoAxis};
pub use known::Known;
pub use looks::Look;
pub use offers::Offer;
pub use parts::Part;
pub use variants::Variant;
