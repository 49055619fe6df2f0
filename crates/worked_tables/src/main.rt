//! Tables that are counted by a run: what becomes of hostile packets, and how classes that are kept entry by entry
//! compare with a plain closure.
//!
//! It runs no text. It prints a line for each table, which the gate compares with the file `stdout` beside `src/`; that
//! these are the counts is shown by the run, and stands in no clause. That classes stand for their journal is a clause
//! of `replicate_merge`.
//!
//! ```text
//!   83 | 0008 | 01 02 0000 0001 00 01 00 00000000 00000003 00000000 0003 | 414243 | 92     the frame: 30 bytes
//!  turn  type   its body: a head of 23 bytes, from host 0 to host 1, and a message    CRC
//! ```
//!
//! | module | has |
//! |---|---|
//! | `packets` | the lines of packets, from these: |
//! | `aims` | where a switch sends packets, by their first byte and the port that they enter by |
//! | `flips` | flips of the frame, and which are refused |
//! | `cuts` | the frame's body, cut |
//! | `frame` | the frame |
//! | `classes` | the lines of journals: how many entries one has, after how many the classes agree with the closure in each pair of nodes with its offset and in which nodes are of an expanded class, after how many with `Classes::from_journal` in count and numbers too, and what there is at its end |
//! | `comparing` | a journal's classes, compared after each entry |
//! | `at_once` | classes compared with those made at once |
//! | `prefix` | the journal of the entries so far |
//! | `seen` | what classes say of nodes |
//! | `so_far` | the entries so far |
//! | `plain` | the plain closure |
//! | `fabrics` | the fabrics, and to which depth their journals grow |
#![tactic(auto)]

mod aims;
mod at_once;
mod classes;
mod comparing;
mod cuts;
mod fabrics;
mod flips;
mod frame;
mod packets;
mod plain;
mod prefix;
mod seen;
mod so_far;

use std::io;

fn main(rt: HostRuntime) -> io::Result<()> {
    packets::print_packets(&rt)?;
    classes::print_classes(&rt)
}
