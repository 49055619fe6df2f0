//! Which nodes of a mapper's journal are one switch, or one host.
//!
//! It asks nothing and knows no fabric: it looks at a journal alone (replicates, Mainwaring, Chun, Schleimer and
//! Wilkerson, SPAA 1997). `specs/Table.antt` says what classes are and when they stand for a journal,
//! `specs/Rounds.antt` what is kept while pairs of ports are open.
//!
//! ```text
//!            port 1 +-----------------+ port 3
//! host a --- 0   s  |                 |  t   4 --- host b
//!            port 2 +-----------------+ port 6
//! ```
//!
//! The walks `+1` and `+2` both find t, by port 3 and by port 6. That shows once `+1 +1` and `+2 -2` find host b:
//! ways that begin at one spot end at one spot, so the two nodes in front of host b are one switch, whose ports lie
//! 3 apart.
//!
//! An entry adds a node and its ways. Then pairs of ports that are one are joined one after another, until none is
//! open: the ports of the one class become ports of the other, and where both have a far end at one port, these two
//! ends are the next pair. So each way costs what it changes. The classes of a whole journal are made at once: all
//! nodes, then all ways, and then the joins, whatever the order of the entries.
//!
//! | module | has |
//! |---|---|
//! | `classes` | the classes of a journal, kept entry by entry |
//! | `merged` | the classes of a journal that grows no more |
//! | `fronts` | what stands in front of a walk |
//! | `pushing` | the ways that an entry adds |
//! | `ways` | the ways of a node |
//! | `starting` | the mapper's host alone |
//! | `journals` | the nodes, asked turns and orphans of a whole journal |
//! | `at_once` | the classes of a whole journal joined at once |
//! | `settling` | classes joined until no pair is open; it knows no journal |
//! | `way` | ways between ports |
//! | `adding` | ways learnt, or put onto the work list |
//! | `ends` | far ends by class and port |
//! | `frames` | frames of nodes, and the nodes of each class in a ring |
//! | `heads` | numbers, least nodes and marks of classes |
//! | `meeting` | pairs of ports that are one |
//! | `merging` | the order of nodes |
//! | `order` | the order of walks |
//! | `seeing` | frames as callers see them |
#![tactic(auto)]

mod adding;
mod at_once;
mod classes;
mod ends;
mod frames;
mod fronts;
mod heads;
mod journals;
mod meeting;
mod merged;
mod merging;
mod order;
mod pushing;
mod seeing;
mod settling;
mod starting;
mod way;
mod ways;

pub use classes::Classes;
pub(crate) use frames::Frames;
pub use fronts::{Front, number_after};
pub(crate) use heads::{Head, Heads};
pub(crate) use meeting::{HostNode, Meeting};
pub use merged::Merged;
pub use port_align::ClassFrame;
pub(crate) use port_align::{NodePort, PortTable};
pub(crate) use settling::Joined;
pub(crate) use way::{Spot, Way};
