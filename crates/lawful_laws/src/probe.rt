//! What the packet of a probe is: `specs/Probes.antt` has the statements.

ghost use Rattle.lawful_laws.specs.Probes.{ProbeIsRead, ProbeIsNothingElse, GmIsNoProbe, PartIsNoProbe};

/// The packet of a probe is read as one, where its walk has turns alone, and never as anything else.
pub fn packets_of_probes()
    ensures read { ProbeIsRead }
    ensures nothing_else { ProbeIsNothingElse }
    ensures no_frame { GmIsNoProbe }
    ensures no_part { PartIsNoProbe }
{}
