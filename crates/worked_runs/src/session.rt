//! One command by the call that hands the session on, for those who build on the session; the program lets its session
//! print onto one text instead.

use fabric_run::{Command, Fabric, Session};
use std::io;
use worked_texts::Tally;

const NAME: &str = "a settle by the session's own call";

const SETTLED: &[u8] = b"settle rounds 1 resets 0 unacked 0\n";

/// Settles a fabric of nothing, and compares what comes out.
pub(crate) fn try_session(rt: &HostRuntime, tally: &mut Tally) -> io::Result<()> {
    let session = Session::new(rt.alloc(), Fabric::new(rt.alloc()))?;
    let text = match session.exec(rt.alloc(), &Command::Settle) {
        Ok((session, text)) => {
            session.end();
            text
        }
        Err((session, wanting)) => {
            session.end();
            return Err(wanting.into());
        }
    };
    if text.as_slice() == SETTLED {
        tally.tell(rt, NAME, &None)
    } else {
        tally.fail(rt, NAME, &"it printed something else")
    }
}
