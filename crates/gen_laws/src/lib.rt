//! What every generated run does: its summary has six lines, its map is complete, all hosts have their routes, and all
//! its messages come.
//!
//! The text is `fabric_gen`'s, its commands are `input_texts`'. Read `specs/Summary.antt` first.
//!
//! Why all messages come, whatever the three planned faults strike:
//!
//! ```text
//!   each host sends four, the peers of one number are all different,   so four go to each host
//!   each has its buffer, of its size and priority, before it is sent   so no message waits for a token
//!   no planned fault is a pull                                         so no route breaks
//!   then a settle delivers, and at each host four messages wait        so each of four polls receives one
//! ```
#![tactic(auto)]

mod six_lines;

pub use six_lines::generated_runs;
