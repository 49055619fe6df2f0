//! The window of a connection, and the packets on their way: `specs/Windows.antt` has the statements.

ghost use Rattle.message_laws.specs.Windows.{WindowsHold, TrafficIsHonest};

/// What is acknowledged was taken, what was taken was sent, and at most a window of fragments is sent and not
/// acknowledged.
pub fn windows_hold()
    ensures windows { WindowsHold }
{}

/// Each packet that no flip has met, in a channel or in limbo, says only what is true.
pub fn honest_packets()
    ensures honest { TrafficIsHonest }
{}
