//! What every run installs: `specs/Runs.antt` has the statements.

ghost use Rattle.run_laws.specs.InstallLines.{RightRoutesAreShort, RunRoutesAreOfMap, RunCanInstall};
ghost use Rattle.run_laws.specs.InstallLines.{InstalledLineIsTrue};

/// The routes of a right map have at most 64 turns, as many as a part carries.
pub fn short_routes()
    ensures { RightRoutesAreShort }
{}

/// A run's last routes are those of a right map, so they can be installed; each line `installed K of N` has its cause,
/// and no more hosts are counted than have their table, the set's routes from there.
pub fn installed_lines()
    ensures routes { RunRoutesAreOfMap }
    ensures can { RunCanInstall }
    ensures line { InstalledLineIsTrue }
{}
