//! Words of a line, written after a text.
//!
//! It reads nothing, and knows no line of a report. `specs/Words.antt` says how each word is written.
//!
//! ```text
//!   Text "rank", Marked '#' 0, Number 3, Number 12      rank #0 3 12
//! ```
//!
//! All is written into the text itself: a number takes no memory of its own.
#![tactic(auto)]

mod hexadecimal;
mod word;
mod words;

pub use word::{Word, append_bytes, append_marked};
pub use words::{append_behind, append_line, append_spaced, append_words};
