//! Sets of numbers, as marks: a bit for each number, in words of 64.
//!
//! `Marks` has the least of its numbers at hand, so that an empty set is seen at once; the functions beside it are for
//! words whose owner knows that otherwise. What the numbers are is the owner's. `specs/Marks.antt` says what a mark is.
//!
//! ```text
//!   word       0                1            2
//!   bit        0 1 2 .. 63      0 1 .. 63    0 ..
//!   number     0 1 2 .. 63     64 65 .. 127  128 ..
//!   marks      . . 1 .. .       1 .  .. .    .            the least is 2, and the next from 3 on is 64
//! ```
#![tactic(auto)]

mod marks;
mod words;

pub use marks::Marks;
pub use words::{bare, mark, next_marked, unmark};
