//! What an input says: words ask for a run, and a text is read as a fabric and its commands, or its first fault is
//! reported.
//!
//! It runs nothing: that is `fabric_run`. `specs/Forms.antt` says what words ask for, `specs/Reading.antt` which texts
//! are accepted and what they say, `specs/Generated.antt` what every generated text says.
//!
//! | module | has |
//! |---|---|
//! | `form` | what words ask for |
//! | `reading` | what a text says |
//! | `refusal` | the line of a text that isn't accepted |
//! | `generated` | what the text of a generated run says |
//! | `law` | every generated text is accepted |
#![tactic(auto)]

mod form;
mod generated;
mod law;
mod reading;
mod refusal;

pub use form::{Form, form_of};
pub use generated::read_generated;
pub use law::texts_are_accepted;
pub use reading::{Accepted, read_text};
pub use refusal::refusal_line;
