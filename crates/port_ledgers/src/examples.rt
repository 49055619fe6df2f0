//! A worked example, computed by the prover: the function's contract is the example, and its body is empty.

ghost use Rattle.std.specs.Prelude.{◌≡◌, ◌∷◌, [], Some};
ghost use Rattle.port_ledgers.specs.Told.{sent_told, received_told};
ghost use Rattle.port_ledgers.specs.Held.{port_told};
ghost use Rattle.port_ledgers.specs.Examples.{lane, way_back, sender, first_message, second_message, lines};

/// Of two messages that were accepted the first was received, and its send token came back.
pub fn one_message_of_two()
    ensures sent { sent_told lane lines ≡ first_message ∷ second_message ∷ [] }
    ensures received { received_told lane lines ≡ first_message ∷ [] }
    ensures other_lane { sent_told way_back lines ≡ [] }
    ensures tokens { port_told sender lines ≡ Some record {
      sends = 2;
      recvs = 0;
      client = record { sends = 0 ∷ []; recvs = [] };
    } }
{}
