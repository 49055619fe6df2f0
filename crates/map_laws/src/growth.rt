//! The laws of a mapper's growth: each function's contract is the law, and its body is empty.

ghost use Rattle.map_laws.specs.Laws.{
  ToldJournalIsOne,
  ToldJournalExists,
  GrownJournalIsOne,
  GrownJournalExists,
  GrowthGoesOnOrEnds,
  AsksAreFew,
  DepthSuffices,
  BoundIsTight,
};

/// A journal that has grown to a depth is one: with true answers, and with any that are given after the entries before.
pub fn grown_journal_is_one()
    ensures told { ToldJournalIsOne }
    ensures true_answers { GrownJournalIsOne }
{}

/// There is one for every depth: over every fabric's true answers, and also where probes may be lost.
pub fn grown_journal_exists()
    ensures told { ToldJournalExists }
    ensures true_answers { GrownJournalExists }
{}

/// A growing journal has a next ask, or its growth has ended by its depth: also where probes were lost.
pub fn growth_goes_on_or_ends()
    ensures { GrowthGoesOnOrEnds }
{}

/// A journal has at most 30 asks for each walk that found something, and one more.
pub fn asks_are_few()
    ensures { AsksAreFew }
{}

/// Where every answer is true of a fabric, a depth of Q + D + 1 suffices: the journal is closed, within the node
/// limit, and a greater depth changes nothing.
pub fn depth_suffices()
    ensures { DepthSuffices }
{}

/// A depth of Q + D does not suffice.
pub fn bound_is_tight()
    ensures { BoundIsTight }
{}
