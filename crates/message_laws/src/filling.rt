//! Bytes that are coming: `specs/Filling.antt` has the statements.

ghost use Rattle.message_laws.specs.Filling.{ComingIsTied};

/// Where something of a connection's next message came, one token is filling with it, at that message's port; else none
/// is filling for the connection.
pub fn what_is_coming()
    ensures { ComingIsTied }
{}
