//! The routes of a map: for each two hosts the least legal one.
//!
//! It moves no packet. `specs/Routing.antt` of `map_defs` says what is legal and least.
//!
//! For each host a search goes backwards: the host itself is 0 channels away, and a switch one more than the nearest
//! that a legal channel of it leads to. A packet that went down is told from one that didn't, since it may not go up
//! again, so a vertex has two distances. A route then takes, at each switch, the least port that leads one channel
//! nearer: the first turns decide, so it is the least of all ways of its length, and a shorter one would make the
//! distance less.
//!
//! The cabled ports of each vertex are listed once for a map. A sweep over these lists lowers all distances to a
//! host: first those of packets that went down, from the last vertex on, then the others, from the first. A channel
//! down leads to a place farther from the root, so where switches are numbered by that distance, as a mapper numbers
//! them, one sweep finds all. Else there are sweeps until nothing is left. A host that hangs at the switch of the host
//! before it takes the distances of that one, with its own place in the place of the other's; and a route to it is the
//! route before, with another last turn.
//!
//! ```text
//!   a ---- s ---- t ---- b      To b, the distances of b, t and s are 0, 1 and 2. From s, the least port that leads
//!   -      2      1      0      to a distance of at most 1 is the one to t, from t the one to b. A host leads nowhere
//!                               on.
//! ```
//!
//! | module | has |
//! |---|---|
//! | `entered` | a vertex that was entered by a port, and a port by which a packet goes on |
//! | `exits` | the cabled ports of each vertex |
//! | `distances` | how far each vertex is from a host |
//! | `firsts` | by which port a way goes on from each vertex |
//! | `numbering` | whether vertices are numbered as they stand in the order |
//! | `ways` | the ways to one host |
//! | `beside` | the ways to a host by those to another at its switch |
//! | `shared` | the walk to a host by that to another at its switch |
//! | `pairs` | the routes of all hosts |
#![tactic(auto)]

mod beside;
mod distances;
mod entered;
mod exits;
mod firsts;
mod numbering;
mod pairs;
mod shared;
mod ways;

pub use pairs::routes;
