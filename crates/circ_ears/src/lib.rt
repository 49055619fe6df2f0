//! Path lists: the cables of a core, parted into paths, each with a return walk that leads a probe over all of it to
//! a host.
//!
//! It asks nothing and makes no map: it looks at a fabric alone, and says how deep a map over circuit links has to
//! be. `specs/EarLists.antt` says what is answered; `specs/PathList.antt` and `specs/Cores.antt` of `circ_defs`, what
//! a path list of the core is. (Paths like these part a graph without bridges: ears, after Whitney and Robbins.)
//!
//! ```text
//!   host a --0-- s --1-- t --2-- host b       path 0: 0        return walk 0
//!                |       |                    path 1: 1 2      return walk 0 1 2
//!                +---3---+                    path 2: 3        return walk 0 3 2
//! ```
//!
//! A path from x to y has its return walk where one walk comes from the mapper's host to x and another leads from y to
//! some host, with no cable in common; or the other way round. A path that ends at a host of its own needs the first
//! alone. That there are such walks is a law of path lists (`specs/Laws.antt`), and the code follows its proof:
//! `TwoWalks`, `Inner` (paths read backwards), `Returns`, `Short`, `Onward` (where a cable of the core is left, there
//! is a next path), `Telltale` (what is of the core can be told), `Existing`, in `proofs/`.
//!
//! | module | has |
//! |---|---|
//! | `step` | a cable, crossed out of one end into the other |
//! | `trail` | steps of a way: where they begin, end and pass a vertex |
//! | `touching` | where a path may end |
//! | `search` | the next path, by breadth first from a cable that is left |
//! | `two_walks` | two walks to any two vertices of the paths |
//! | `ear_list` | the path list by its cables' numbers |
//! | `path_list` | path after path, until no cable of the core is left |
//! | `laws` | that path lists exist and have short return walks |
#![tactic(auto)]

mod ear_list;
mod laws;
mod path_list;
mod search;
mod step;
mod touching;
mod trail;
mod two_walks;

pub use ear_list::EarList;
pub use laws::{
    map_at_this_depth_is_the_core, path_lists_are_short, path_lists_exist, paths_have_return_walks,
    return_walks_are_short,
};
pub use path_list::ears;
pub use port_graph::Fabric;
