//! The buffers of ports: `specs/Untouched.antt` has the statements.

ghost use Rattle.message_laws.specs.Untouched.{ProvidedBuffersAreUntouched, ClosedBuffersAreUntouched};

/// A provided buffer stays as the client provided it until a message is written into it, and so it is when its port
/// is closed: a close hands back each provided token with its buffer, and each other token is with the client.
pub fn untouched_buffers()
    ensures provided { ProvidedBuffersAreUntouched }
    ensures closed { ClosedBuffersAreUntouched }
{}
