//! The top call: a text comes in, a report goes out, and the session of its run is handed back.
//!
//! `run` reads a fabric and a script, makes one session, and lets it do each command. It makes no source and no sink:
//! `myrifab` does; nor does it say what words ask for and what a text says: `input_texts` does. `specs/Ends.antt` and
//! `specs/Generated.antt` say how a run may end, `specs/Promise.antt` what every accepted text promises, and
//! `specs/Lines.antt` what is true of its lines.
//!
//! ```text
//!   words -> text -> fabric and commands -> session -> command -> its text -> sink
//!                          |                   ^          |
//!                          +--> refused        +----------+
//!
//!   words -> text -> fabric, commands and report -> verdict -> sink
//!
//!   words -> hosts and seed -> their text -> .. -> figures -> summary -> sink
//! ```
//!
//! | module | has |
//! |---|---|
//! | `top` | `run`, and how it ends |
//! | `judged` | the judgement of a report after its text, and its line |
//! | `generated` | the run of a generated text, and its summary |
//! | `promise` | what every accepted text promises, and what follows |
//! | `status`, `ran` | how a run ended, and what it hands back |
#![tactic(auto)]

mod generated;
mod judged;
mod promise;
mod ran;
mod status;
mod top;

pub use promise::what_promises_imply;
pub use ran::Ran;
pub use run_session::{Command, Fabric, OutOfMemory, Session, World};
pub use status::Status;
pub use top::run;
