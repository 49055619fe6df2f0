//! A run's session: what is held from command to command, and what each command does.
//!
//! It reads no script and prints no report of its own: a command comes in, and what it printed goes out.
//! `specs/Run.antt` of `run_defs` says what each command does; `specs/Obeyed.antt` here that a text is that of what
//! was done.
//!
//! ```text
//!   Map, links busy        map a refused busy
//!   Map, links idle        world --> prober --> map --> its line, then the lines of the map; the map is kept
//!   Circuit                the fabric, which is only read --> its line, then the lines of the map; nothing is kept
//!   Walk                   its own links, made anew where cables changed --> its line
//!   Routes, no such map    routes refused nomap
//!   Routes                 the last map, which says complete --> routes --> their lines; the routes are kept
//!   Install, refused       install refused noroutes, busy, changed, installed or epochs
//!   Install                the last routes --> adopted --> their parts, host by host --> its line, then the tables
//!   Settle                 a clear, and rounds of sending again --> its line
//!   Revoke                 an event for each host, which gives up the epoch of the adopted routes --> its line
//!   Duo                    one event of the two hosts that restart, which are apart from the world --> its line
//!   all others             at most one event of the world --> its line (`world_commands`)
//! ```
//!
//! A session's type keeps what the routes rest on (`specs/Kept.antt`): a last map that says complete was its mapper's
//! part of the fabric as it stood when the map began. It keeps too that its own links are empty, of which contracts see
//! nothing. It stands behind a box, so that a session that is handed on is a pointer.
//!
//! | module | has |
//! |---|---|
//! | `session` | the session |
//! | `held` | what it holds, behind its box |
//! | `last` | the last map and the last routes |
//! | `commands` | every command that makes no map, over the parts of a session |
//! | `mapping` | a map made over a world, with its text |
//! | `circuit_links` | a map of its circuit links, with its text |
//! | `routing` | the routes of a map, with their text |
//! | `installing` | an installation of the last routes, with its text |
//! | `settling` | a settle, and its text |
//! | `walking` | the links of walks, and a walk's text |
#![tactic(auto)]

mod circuit_links;
mod commands;
mod held;
mod installing;
mod last;
mod mapping;
mod routing;
mod session;
mod settling;
mod walking;

pub use fab_report::Printed;
pub use fab_world::{Fabric, World};
pub use run_defs::Command;
pub use session::Session;
pub use world_commands::OutOfMemory;
