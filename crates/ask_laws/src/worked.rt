//! Asks over two hosts, worked out: `specs/Examples.antt` has the statements.

ghost use Rattle.ask_laws.specs.Examples.{HostCanAsk, OneTryDrowns, SecondTryFinds, PulledAskDrowns};

/// Where the first packet is lost, an ask of one try drowns, and one of two tries finds the host; where a planned fault
/// pulls the cable of its host, an ask drowns.
pub fn lost_probe()
    ensures can { HostCanAsk }
    ensures one_try { OneTryDrowns }
    ensures two_tries { SecondTryFinds }
    ensures pulled { PulledAskDrowns }
{}
