// The readers of a pattern's smaller pieces: items that hold no other part, what a `(` opens, what stands behind a part, and
// parts in a row.
#![tactic(auto)]

mod leaves;
mod openings;
mod parts;
mod series;
mod words;

pub use leaves::single;
pub use openings::{Opening, opening_at};
pub use parts::{Reached, closed};
pub use series::{Spliced, joined, splice};
pub use words::{clear, ends_sequence, first_high};
