//! What is judged of the answers in a report: definitions.
//!
//! It judges nothing itself, and says nothing of lines: `judge_defs` says which lines are an answer.
//!
//! | file of `specs/` | says |
//! |---|---|
//! | `Answer` | what the lines of a command say, and what follows from the answers so far |
//! | `Right` | what maps, routes with their ranks, messages and tokens must be |
//! | `Failing` | which line of an answer that isn't right fails, and what fails there |
#![tactic(auto)]

mod why;

pub use why::Why;
