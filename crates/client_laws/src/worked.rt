//! A worked example: `specs/Examples.antt` has the statement.

ghost use Rattle.client_laws.specs.Examples.{TokenIsNoted};

/// A send notes its token, and a poll answers it: the law is not of ports alone to which no token comes back.
pub fn one_token()
    ensures { TokenIsNoted }
{}
