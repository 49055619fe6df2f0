//! The law of the bodies: the function's contract is the law, and its body is empty.

ghost use Rattle.probe.specs.Laws.{ProbeIsRead, ReplyIsRead, LoopIsRead};

/// Bodies of probes and replies that were written are read as what they are.
pub fn bodies_of_probes_are_read()
    ensures probe { ProbeIsRead }
    ensures reply { ReplyIsRead }
    ensures looped { LoopIsRead }
{}
