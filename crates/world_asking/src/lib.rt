//! A mapper that asks over a world, by probe packets.
//!
//! It makes no map and installs nothing, and keeps nothing of its own but the mapper's count: all that it does are
//! events of the world. `specs/Prober.antt` says what an ask is.
//!
//! ```text
//!   ask of a walk --> every host gives up --> host probes, each alone --> loopback probes, each alone
//!                                                |  inject, drain           |  inject, drain
//!                                                +--> Host(h)               +--> Switch, or Nothing
//! ```
//!
//! | module | has |
//! |---|---|
//! | `sending` | a packet that a host sends, and what comes of it |
//! | `trying`, `asking` | the tries of a probe, and an ask |
//! | `prober` | the mapper over a world |
#![tactic(auto)]

mod asking;
mod prober;
mod sending;
mod trying;

pub use prober::WorldProber;
