//! What is judged of a report that follows its text: definitions, laws of them, and worked examples.
//!
//! It judges nothing itself, and reads no line. `specs/Text.antt` says when a report is judged yes, and which line of
//! another is the first that fails; read it first. `answer_defs` says what is right of the answer of a command.
//!
//! | file of `specs/` | says |
//! |---|---|
//! | `Form` | which lines are a command's answer, or which line is out of form |
//! | `Verdict` | answers that are judged yes, and the first line that fails, for commands and lines |
//! | `Text` | the same for a text with its report |
//!
//! | module | has |
//! |---|---|
//! | `first_lines`, `calls` | whether a line may be the first of a command's answer, in code |
//! | `due_lines` | whether a line is the next that is due in an answer |
//! | `law`, `examples` | the laws, and the worked examples |
#![tactic(auto)]

mod calls;
mod due_lines;
mod examples;
mod first_lines;
mod law;

pub use answer_defs::Why;
pub use due_lines::{
    is_end_of_broken, is_end_of_routes, pair_due, refused_pair, rising_table_due, table_due,
};
pub use examples::{counted_tables, message_with_its_token, moved_cable, routes_that_broke};
pub use first_lines::may_answer;
pub use law::{one_line_fails_first, yes_excludes_no};
