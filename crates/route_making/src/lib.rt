//! The routes of a complete map, and what is printed of them.
//!
//! It makes no map and installs no route. `specs/Run.antt` of `run_defs` says which lines there are, and
//! `specs/LineText.antt` there what text they have; `specs/Kept.antt` which maps routes are computed of.
//!
//! ```text
//!   map --> orientation --> routes --+
//!                 |                  +--> routes 2, route a b +3, .., rank a 0 1, .., endroutes
//!                 +-----> ranks -----+
//! ```
//!
//! The check of `rank_cert` would find no fault in them: that is proved, so the check isn't made each time.
//!
//! | module | has |
//! |---|---|
//! | `making` | the routes of a map with their text |
//! | `printing` | the lines of routes and ranks |
//! | `hosts` | the hosts of a map by address |
//! | `laws` | that its routes may be adopted, and are of its hosts |
#![tactic(auto)]

mod hosts;
mod laws;
mod making;
mod printing;

pub use hosts::hosts_of_map;
pub use laws::routes_of_kept_maps;
pub use making::{MadeRoutes, make_routes};
