//! Circuit links: where a walk ends if its packet holds each cable that it has crossed until it is heard.
//!
//! It moves no packet: it looks at a fabric alone, and takes no memory. `specs/Circuit.antt` of `circ_defs` says what
//! a circuit place is; `specs/Exits.antt` here, by which ends a walk leaves, and when it meets itself.
//!
//! ```text
//!   host a            switch s               switch t        The walk +3 +1 -2 leaves by port 0 of a, ports 3 of s, 1 and 0 of t.
//!   +---+      +-0---------3-+      +-0----1-+               Its last exit is the other end of the second one's cable: back in s
//!   | 0 |------|             |------|        |----+          it would wait for its own tail. So its place is Nothing.
//!   +---+      +-----1-------+      +-----2--+    |
//!                    |                    |       |
//!                  host b                 +-------+
//! ```
//!
//! | module | has |
//! |---|---|
//! | `circuit` | the circuit place of one walk |
//! | `places` | the circuit places of walks that go on from one walk |
#![tactic(auto)]

mod circuit;
mod places;

pub use circuit::circ_place;
pub use places::CircPlaces;
