//! The fabric part of a text: read into a fabric, and printed from one.
//!
//! It reads up to the line `script`, and knows no command. `specs/Declaring.antt` says what a line declares,
//! `specs/Reading.antt` which texts are accepted and what the first fault is, `specs/Printing.antt` what is printed.
//!
//! ```text
//!   host a             a host, which has port 0 alone
//!   switch s 8         a switch of eight ports
//!   cable a 0 s 2      port 0 of a joined with port 2 of s
//!   script             the end
//! ```
#![tactic(auto)]

mod declaring;
mod printing;
mod reading;

pub use printing::print_fabric;
pub use reading::{FabricText, read_fabric};
