//! Which packets are lawful: `specs/Lawful.antt` has the statements.

ghost use Rattle.lawful_laws.specs.Lawful.{UnflippedIsLawful, UnflippedIsRead, LimboIsLawful, LimboIsRead};
ghost use Rattle.lawful_laws.specs.Lawful.{AdvanceKeepsLawful};

/// Each packet in a channel that no flip has met is on the last part of an adopted route, but for those of probes and
/// of epochs before; and an advance leaves lawful traffic.
pub fn lawful_packets()
    ensures channels { UnflippedIsLawful }
    ensures read { UnflippedIsRead }
    ensures advance { AdvanceKeepsLawful }
{}

/// So is each packet in limbo, in the channel that it was taken from.
pub fn lawful_limbo()
    ensures limbo { LimboIsLawful }
    ensures read { LimboIsRead }
{}
