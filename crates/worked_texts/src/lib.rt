//! Worked texts: all those of a folder, run through a top call over memory and compared with what is wanted.
//!
//! It runs nothing of its own: the call is a [`TopCall`], which `worked_runs` makes of the program's. What is said of a
//! difference stands in no clause but one: `compare` finds none exactly where report and status are as wanted.
//!
//! A text is made of files with one name, in the folder that the program is started in:
//!
//! | file | has |
//! |---|---|
//! | `NAME.in` | what is read, byte for byte |
//! | `NAME.out` | the report that must be written, byte for byte |
//! | `NAME.words` | the words of the command line, one a line; where there is no such file, the word `run` |
//! | `NAME.status` | the exit status in which the run must end; where there is no such file, 0 |
//! | `NAME.cuts` | a line for each place at which the text `NAME.in` is cut, from its first byte to after its last, with what must come of it: the line of a refusal, or `done`, where the report is the whole text's |
//! | `NAME.front`, `NAME.refused` | the first lines of a text; and lines with a kind of fault, a space, and the line that has this fault after the front lines |
//!
//! | module | has |
//! |---|---|
//! | `folder` | the files of the folder |
//! | `trial` | one run over memory, compared; the call that is tried |
//! | `row` | one text with its words, and what is wanted of it |
//! | `difference` | the first difference from what is wanted |
//! | `tally` | the lines that are printed, and their count |
//! | `cuts` | a text that is cut at each place |
//! | `refusals` | tables of lines that are refused |
//! | `ends` | texts whose reads and writes fail, one after another |
//! | `limit` | the longest input, and one that is longer |
//! | `generated` | a generated text, compared |
//! | `reports` | the reports of the folder, judged |
#![tactic(auto)]

mod cuts;
mod difference;
mod ends;
mod folder;
mod generated;
mod limit;
mod refusals;
mod reports;
mod row;
mod tally;
mod trial;

pub(crate) use cuts::try_cuts;
pub(crate) use difference::{Difference, Wanted, compare};
pub use ends::try_ends;
pub use folder::try_files;
pub use generated::try_generated;
pub use limit::try_limit;
pub(crate) use refusals::try_refused;
pub use reports::try_reports;
pub(crate) use row::{Row, run_word};
pub use tally::Tally;
pub use trial::TopCall;
pub(crate) use trial::{PIECE, REFUSED, try_row, try_run, try_text};
