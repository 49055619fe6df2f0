//! The summary of every generated run: `specs/Summary.antt` has the statement.

ghost use Rattle.gen_laws.specs.Summary.{GeneratedRunsHaveSixLines};

/// The run of a generated text maps its whole fabric, installs routes on all hosts, has all messages accepted, received
/// and acknowledged, and its summary says so in six lines.
pub fn generated_runs()
    ensures { GeneratedRunsHaveSixLines }
{}
