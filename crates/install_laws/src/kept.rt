//! What an installation leaves: `specs/Kept.antt` has the statements.

ghost use Rattle.install_laws.specs.Kept.{InstallingKeeps, InstallingEndsIdle, CanInstallAgain};

/// An installation changes tables alone, leaves idle links, and the same set can be installed again after it.
pub fn kept_by_installations()
    ensures kept { InstallingKeeps }
    ensures idle { InstallingEndsIdle }
    ensures again { CanInstallAgain }
{}
