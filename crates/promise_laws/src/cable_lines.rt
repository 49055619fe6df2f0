//! What the lines of cables and of epochs say: `specs/CableLines.antt` has the statements.

ghost use Rattle.promise_laws.specs.CableLines.{PullLineIsTrue, PlugLineIsTrue, RevokedLineIsTrue};

/// Each command `pull` prints one line. It says `done` exactly where the port had a cable, which is pulled then.
pub fn pull_lines()
    ensures { PullLineIsTrue }
{}

/// Each command `plug` prints one line. It says why the ports aren't joined, exactly where they aren't.
pub fn plug_lines()
    ensures { PlugLineIsTrue }
{}

/// Each command `revoke` prints one line, with the number of all hosts where routes are adopted: each of them has given
/// up their epoch then.
pub fn revoke_lines()
    ensures { RevokedLineIsTrue }
{}
