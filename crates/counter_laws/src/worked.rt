//! A worked example: `specs/Examples.antt` has the statements.

ghost use Rattle.counter_laws.specs.Examples.{SixProbesAreCounted, SixProbesAreInCounters, PulledProbesAreCounted};

/// Packets end in each way, and are counted: the laws are not of worlds alone in which nothing happens.
pub fn six_probes()
    ensures kinds { SixProbesAreCounted }
    ensures counters { SixProbesAreInCounters }
    ensures pulled { PulledProbesAreCounted }
{}
