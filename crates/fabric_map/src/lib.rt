//! A map in memory: vertices, cables and core marks, with the far end of each port and the vertex of each host.
//!
//! It makes no map of a journal and reads no text. What a contract sees of a `FabricMap` is a `NetMap` of `map_defs`,
//! whose `specs/NetMap.antt` says what each call means; `specs/Growing.antt` here says what it takes.
//!
//! | module | has |
//! |---|---|
//! | `vertices` | vertices with their marks, and an index of the hosts by address |
//! | `cabling` | cables, with a table of far ends by port |
//! | `map` | the map: reading it, growing it, marking its core |
#![tactic(auto)]

mod cabling;
mod fault;
mod map;
mod vertices;

pub use fault::MapFault;
pub use map::FabricMap;
pub use map_defs::{MapCable, MapVertex};
