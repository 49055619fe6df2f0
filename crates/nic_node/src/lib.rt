//! One host: what it has staged, its table, its lanes and its ports, under one roof.
//!
//! It moves no packet and knows no client: the world hands it the packets that reach it, and takes the packet that it
//! has to send. `specs/Node.antt` and `specs/Hearing.antt` of `world_defs` say what a host is and what it does;
//! `specs/Held.antt` makes that host of the parts, and `specs/Messages.antt` sets lanes and ports alone into
//! it. `specs/Accepting.antt` says when a message is accepted, and what is kept of it; `specs/Ending.antt` what is left
//! of a host once a port of it is ended with all that it holds.
//!
//! ```text
//!                      +--> items: a reply, an acknowledgement ---+
//!   packet --> body ---+--> table: the routes                     +--> the first there is --> packet
//!                      +--> lanes: acknowledged, taken, owed -----+
//!                      +--> ports: events
//!
//!   send             ---> port: open, length, buffer? ---> a route? ---> lane: a number left? ---> both keep it
//!   frame            ---> lane: the next number? ---> port: a token that fits ---> event
//!   acknowledgement  ---> lane: which sends? ---> their ports: finished   ---> events
//! ```
#![tactic(auto)]

mod accepting;
mod ending;
mod hearing;
mod mapping;
mod messages;
mod next;
mod node;
mod ports;
mod refusal;
mod sending;
mod unacked;

pub use gm_conn::Message;
pub use host_items::{Packet, RoutePart};
pub use host_ports::{NodeBegin, NodeClose, NodeProvide, NotOpen, PortEvent, SendAsk, Wreck};
pub use next::NextSend;
pub use node::NicNode;
pub use refusal::NodeSend;
pub use route_install::Table;
pub use world_defs::{Arrival, Heard};
