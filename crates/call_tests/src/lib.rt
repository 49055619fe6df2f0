//! Tests of calls that no worked text reaches, across crates, and worked examples of the bytes of packets and of the
//! check of ranks. Nothing stands on it.
//!
//! | module | has |
//! |---|---|
//! | `examples` | the bytes of frames, probes and tables |
//! | `connections` | a message over a pair of a sender and a receiver; a sender at its last number |
//! | `hosts` | the packet of what a host sends first |
//! | `installing` | what an installation awaits first |
//! | `ports` | a buffer that parts from its message, and bytes that don't count up |
//! | `numbers` | offsets of ports, texts of faults |
//! | `packets` | a byte's share in a CRC, a packet that is stripped, and bodies written as they were read |
//! | `restarts` | two hosts that restart, at the last incarnation |
//! | `streams` | std's readers and writers as a source and a sink |
//! | `pieces` | the same, of readers and writers that move a byte a call, and then none, or fail |
//! | `rank_examples` | what the check of a certificate answers |
//! | `mapping` | a journal that a prober answers, some of whose asks drown, and its map |
//! | `ring` | the certificate over the map of the ring of four |
//! | `numbering` | the numbering of a map |
//! | `circuits` | the paths of a core |
//! | `texts` | a fabric and a map, printed as they were read; the bridges of a map |
//! | `fabrics` | the fabrics that these speak of |
#![tactic(auto)]

#[cfg(test)]
mod circuits;
#[cfg(test)]
mod connections;
mod examples;
#[cfg(test)]
mod fabrics;
#[cfg(test)]
mod hosts;
#[cfg(test)]
mod installing;
#[cfg(test)]
mod mapping;
#[cfg(test)]
mod numbering;
#[cfg(test)]
mod numbers;
#[cfg(test)]
mod packets;
#[cfg(test)]
mod pieces;
#[cfg(test)]
mod ports;
mod rank_examples;
#[cfg(test)]
mod restarts;
#[cfg(test)]
mod ring;
#[cfg(test)]
mod streams;
#[cfg(test)]
mod texts;

pub use examples::{bytes_of_a_part, bytes_of_messages, bytes_of_probes};
pub use rank_examples::faults_of_two_hosts;
