//! Worked examples: `specs/Examples.antt` has the statements.

ghost use Rattle.lawful_laws.specs.Examples.{FrameWorldIsReached, FrameIsAhead, FrameIsLawful, StuckWorldIsReached};
ghost use Rattle.lawful_laws.specs.Examples.{ProbesAreStuck, StrangeWorldIsReached, StrangeIsUnread, TwoClearsBegin};

/// A frame on its way in a reached world is lawful.
pub fn one_frame()
    ensures reached { FrameWorldIsReached }
    ensures ahead { FrameIsAhead }
    ensures lawful { FrameIsLawful }
{}

/// Two probes in a reached world are stuck.
pub fn two_probes()
    ensures reached { StuckWorldIsReached }
    ensures stuck { ProbesAreStuck }
{}

/// A probe in a reached world that no host reads.
pub fn strange_probe()
    ensures reached { StrangeWorldIsReached }
    ensures unread { StrangeIsUnread }
{}

/// Two clears among four events begin before the first and before the last.
pub fn clears_among_events()
    ensures begin { TwoClearsBegin }
{}
