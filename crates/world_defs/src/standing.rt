//! How a world stands to the epoch of its adopted routes.

/// How a world stands to the epoch of its adopted routes: by this, other routes may be adopted or not.
#[derive(Clone, Copy, Debug, PartialEq, Eq)]
pub struct Standing {
    /// The first host that hasn't given up the epoch.
    pub unrevoked: Option<u16>,
    /// Whether some host has given it up.
    pub revoked: bool,
    /// How often cables were pulled and plugged.
    pub changes: u16,
}
