//! What a run hands back.

ghost use Rattle.std.specs.Prelude.{◌≡◌, Some, None};

use crate::status::Status;
use run_session::Session;

/// How a run ended, and the session that it made, where it hands one back.
///
/// It must be spent, by [`Ran::end`], or taken apart and its session ended.
pub struct Ran {
    /// How it ended; its number is the exit status.
    pub status: Status,
    /// The session as the commands left it; none only where no command had run.
    pub session: Option<Session>,
}

impl Ran {
    /// Ends the session that it holds, if any. Takes no memory.
    pub fn end(self) -> Status
        ensures { result ≡ self.status }
    {
        let Ran { status, session } = self;
        if let Some(session) = session {
            session.end();
        }
        status
    }

    // A run that hands its session back.
    pub(crate) fn with_session(status: Status, session: Session) -> Ran
        ensures status { result.status ≡ status }
        ensures some { result.session ≡ Some session }
    {
        Ran {
            status,
            session: Some(session),
        }
    }

    // A run that has no session.
    pub(crate) fn without_session(status: Status) -> Ran
        ensures status { result.status ≡ status }
        ensures none { result.session ≡ None }
    {
        Ran {
            status,
            session: None,
        }
    }
}
