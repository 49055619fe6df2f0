//! Installations: the tables of adopted routes, sent to their hosts.
//!
//! It keeps nothing of the world: but for an adoption, all that it does are events. Which part is tried next and which
//! host is given up, `route_install::Installer` says. `specs/Installing.antt` says what an installation begins with.
//!
//! ```text
//!   install --> every host gives up --> while the installer awaits a part:
//!                                          the part alone --> its acknowledgement --> on_ack, or on_silence
//!                                          inject, drain      inject, drain
//! ```
//!
//! | module | has |
//! |---|---|
//! | `parts` | one try of a part |
//! | `installing` | an installation |
//! | `adopting` | an adoption with its installation |
//! | `laws` | that one may follow an adoption |
#![tactic(auto)]

mod adopting;
mod installing;
mod laws;
mod parts;

pub use adopting::adopt_and_install;
pub use installing::{Installed, install};
pub use laws::unrevoked_adoptions;
