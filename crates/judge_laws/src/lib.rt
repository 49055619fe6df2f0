//! What is proved of reports that a run prints, against what is judged of reports.
//!
//! It judges nothing: that a report is judged yes is a definition of `judge_defs`.
//!
//! | file of `specs/` | says |
//! |---|---|
//! | `Lines` | what a printed line says, as far as it is judged: what the values of its row mean |
//! | `Answers` | which pieces of a report are the answer of a command, and what answer they are |
//! | `Commands` | what is known by the answers so far, and that what commands of the network print is an answer |
//! | `Reports` | that texts are judged yes with the report of their run |
//! | `Examples` | a short report, worked out |
//! | `Laws` | that printed lines and answers are read as what they say, whatever follows them |
#![tactic(auto)]

ghost use Rattle.judge_laws.specs.Laws.{PrintedLinesAreRead, PrintedLinesAreFirst, PrintedAnswersAreFirst};
ghost use Rattle.judge_laws.specs.Commands.{CommandsAreAnswered};
ghost use Rattle.judge_laws.specs.Examples.{ReportIsJudgedYes};
ghost use Rattle.judge_laws.specs.Reports.{ReportsAreJudgedYes, TextsAreJudgedYes};

/// Each printed line is read as what it says, also where it stands in a text.
pub fn printed_lines()
    ensures read { PrintedLinesAreRead }
    ensures first { PrintedLinesAreFirst }
{}

/// Each printed answer is read as what it is: a line alone, a line with a map, routes with their ranks, tables, or
/// broken routes.
pub fn printed_answers()
    ensures { PrintedAnswersAreFirst }
{}

/// What a command of the network prints, after any run, is an answer by what is known before it.
pub fn answered_commands()
    ensures { CommandsAreAnswered }
{}

/// Reports of runs are judged yes, where no command is of the two hosts that restart and no pull of a cable is planned:
/// also client calls, whose lines tell of ports, tokens and messages.
pub fn judged_reports()
    ensures lines { ReportsAreJudgedYes }
    ensures text { TextsAreJudgedYes }
{}

/// Two hosts at one switch, one of which is moved to another port, and a port of a client that opens and closes: what
/// is printed is judged yes.
pub fn judged_report()
    ensures { ReportIsJudgedYes }
{}
