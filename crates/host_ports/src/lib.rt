//! The ports of a host.
//!
//! It sends no packet and knows no peer: the host's node hands it the messages that came and tells it the sends that
//! are finished, by the number of their token. What a contract sees of the ports is `specs/Held.antt`, over the state
//! of a port in `gm_defs`.
//!
//! ```text
//!   number      0      1      2            7        a port in each place where one is open
//!            +------+------+------+- .. -+------+
//!   ports    | port |      | port |      |      |
//!            +------+------+------+- .. -+------+
//! ```
#![tactic(auto)]

mod ask;
mod ports;
mod slot;

pub use ask::{NodeBegin, NodeClose, NodeProvide, NotOpen, PortSend};
pub use gm_port::{
    CloseRefusal, NoMemory, Port, PortEvent, ProvideRefusal, SendAsk, SendRefusal, Wreck,
};
pub use ports::Ports;
