//! Texts in lines and words: names, numbers, turns, and the kinds of fault that a text can have.
//!
//! It knows no command and no fabric, and takes no memory. `specs/Line.antt` says what a line and a word are,
//! `specs/Word.antt` what a name, a number and a turn are, `specs/Fault.antt` what a first fault is.
//!
//! ```text
//!   # two hosts        1  passed over: a comment
//!                      2  passed over: blank
//!   host  a            3  the words `host` and `a`
//! ```
#![tactic(auto)]

mod fault;
mod keyword;
mod line;
mod line_end;
mod line_words;
mod name;
mod number;
mod text;
mod text_lines;
mod word;

pub use fault::{FaultKind, LineFault, NumFault, TextFault};
pub use keyword::is_keyword;
pub use line_words::Words;
pub use name::is_name;
pub use number::{read_turn, read_u32};
pub use text::{line_count, lines, words};
pub use text_lines::Lines;
pub use word::Word;
