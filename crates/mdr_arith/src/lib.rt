//! C's operators on integers: the mathematical result at a kind, or why there is none.
#![tactic(auto)]

mod bits;
mod conversion;
mod division;
mod fit;
mod operators;
mod shift;
mod sum;

pub use bits::flip;
pub use conversion::{common, conv, promote};
pub use operators::bin;
pub use sum::neg;
