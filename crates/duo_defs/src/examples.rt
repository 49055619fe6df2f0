//! Worked examples, computed by the prover: each function's contract is the example, and its body is empty.

ghost use Rattle.duo_defs.specs.Examples.{MessageIsAcknowledged, RestartIsTold, LastIncarnationStays};
ghost use Rattle.duo_defs.specs.Examples.{MessageIsGot, MessageIsOnItsWay};

/// Two ends hear of each other, and a message goes from end 0 to end 1. Its frame comes a second time, and isn't the
/// next.
pub fn acknowledged_message()
    ensures effects { MessageIsAcknowledged }
    ensures got { MessageIsGot }
{}

/// End 1 restarts while the frame is on its way: end 0 is told that it can't know whether the message came.
pub fn restart_before_the_frame()
    ensures effects { RestartIsTold }
    ensures sent { MessageIsOnItsWay }
{}

/// An end whose incarnation is the greatest doesn't restart.
pub fn last_incarnation_stays()
    ensures effects { LastIncarnationStays }
{}
