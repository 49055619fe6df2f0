//! What holds of every port: each function's contract is the law, and its body is empty.

ghost use Rattle.gm_port.specs.Laws.{OpeningHasOneOwner, SendingKeepsOneOwner, ProvidingKeepsOneOwner};
ghost use Rattle.gm_port.specs.Laws.{FinishingKeepsOneOwner, DeliveringKeepsOneOwner, PollingKeepsOneOwner};
ghost use Rattle.gm_port.specs.Laws.{OpeningFillsRight, ProvidingFillsRight, DeliveringFillsRight};
ghost use Rattle.gm_port.specs.Laws.{BufferComesBack, FragmentStandsInPlace};

/// Each call keeps one owner for each token.
pub fn tokens_have_one_owner()
    ensures opening { OpeningHasOneOwner }
    ensures sending { SendingKeepsOneOwner }
    ensures providing { ProvidingKeepsOneOwner }
    ensures finishing { FinishingKeepsOneOwner }
    ensures delivering { DeliveringKeepsOneOwner }
    ensures polling { PollingKeepsOneOwner }
{}

/// What tokens are filling with is right, and of two not of one host and one priority.
pub fn tokens_fill_right()
    ensures opening { OpeningFillsRight }
    ensures providing { ProvidingFillsRight }
    ensures delivering { DeliveringFillsRight }
{}

/// A send's buffer comes back as it was, and one that took a fragment has it in its place and is otherwise as it was.
pub fn buffers_keep_their_bytes()
    ensures sent { BufferComesBack }
    ensures filled { FragmentStandsInPlace }
{}
