//! Worked examples, computed by the prover: the function's contract is the example, and its body is empty.

ghost use Rattle.std.specs.Prelude.{◌≡◌, ◌∷◌, [], negsuc, Some, None};
ghost use Rattle.world_defs.specs.Mapping.{HostProbe, HostReply, Loopback, Part, PartAck, mapping_bytes};
ghost use Rattle.world_defs.specs.Mapping.{decode_mapping};
ghost use Rattle.world_defs.specs.BodyExamples.{first_part};

/// A probe with its way back, a reply, a part of two entries, and what is no body.
pub fn bodies_of_mapping()
    ensures probe { mapping_bytes (HostProbe 7 0 (negsuc 2 ∷ []))
        ≡ 1 ∷ 0 ∷ 0 ∷ 0 ∷ 0 ∷ 0 ∷ 0 ∷ 0 ∷ 7 ∷ 0 ∷ 0 ∷ 1 ∷ 189 ∷ [] }
    ensures probe_read { decode_mapping (mapping_bytes (HostProbe 7 0 (negsuc 2 ∷ [])))
        ≡ Some (HostProbe 7 0 (negsuc 2 ∷ [])) }
    ensures reply_read { decode_mapping (mapping_bytes (HostReply 7 1)) ≡ Some (HostReply 7 1) }
    ensures loop_read { decode_mapping (mapping_bytes (Loopback 9 1)) ≡ Some (Loopback 9 1) }
    ensures part { mapping_bytes (Part first_part)
        ≡ 4 ∷ 0 ∷ 0 ∷ 0 ∷ 1 ∷ 0 ∷ 0 ∷ 0 ∷ 2 ∷ 0 ∷ 2 ∷ 1 ∷ 189 ∷ 2 ∷ 0 ∷ 0 ∷ 1 ∷ 131 ∷ 0 ∷ 1 ∷ 0 ∷ [] }
    ensures part_read { decode_mapping (mapping_bytes (Part first_part)) ≡ Some (Part first_part) }
    ensures ack_read { decode_mapping (5 ∷ 0 ∷ 0 ∷ 0 ∷ 1 ∷ 0 ∷ 2 ∷ 0 ∷ []) ≡ Some (PartAck 1 2 0) }
    ensures longer { decode_mapping (5 ∷ 0 ∷ 0 ∷ 0 ∷ 1 ∷ 0 ∷ 2 ∷ 0 ∷ 0 ∷ []) ≡ None }
    ensures other_kind { decode_mapping (6 ∷ []) ≡ None }
    ensures nothing { decode_mapping [] ≡ None }
{}
