//! What becomes of packets, and what is counted: `specs/Conserved.antt` has the statements.

ghost use Rattle.counter_laws.specs.Conserved.{PacketsAreConserved, CountersAreTrue};

/// At every moment the packets that were injected and copied are as many as those in channels and in limbo, and those
/// that were heard, dropped, lost, reset and taken with their cable.
pub fn conserved_packets()
    ensures { PacketsAreConserved }
{}

/// The counters of a world are the numbers of the injections, of the drops up to the counter's last value, of the
/// planned faults that struck, and of those that harmed.
pub fn true_counters()
    ensures { CountersAreTrue }
{}
