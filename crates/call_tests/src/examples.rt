//! The bytes of frames, probes and tables, computed by the prover: each function's contract is the example, and its
//! body is empty. What the crates of packets and bodies write is this by their clauses.

ghost use Rattle.std.specs.Prelude.{◌≡◌, ◌∷◌, [], pos, negsuc, codes};
ghost use Rattle.packet_defs.specs.declared.kind.Kind.TheVariants.{Gm};
ghost use Rattle.packet_defs.specs.Packet.{packet_of};
ghost use Rattle.gm_defs.specs.Body.{frame_bytes, ack_bytes};
ghost use Rattle.gm_defs.specs.Examples.{abc};
ghost use Rattle.world_defs.specs.Mapping.{HostProbe, HostReply, Loopback, Part, PartAck, mapping_bytes};

/// A message `ABC` from port 0 of host 0 to port 1 of host 1, in a packet with one turn, and an acknowledgement of
/// priority 1.
pub fn bytes_of_messages()
    ensures frame { packet_of (pos 3 ∷ []) Gm (frame_bytes abc (codes "ABC"))
        ≡ 131 ∷ 0 ∷ 8 ∷ 1 ∷ 2 ∷ 0 ∷ 0 ∷ 0 ∷ 1 ∷ 0 ∷ 1 ∷ 0 ∷ 0 ∷ 0 ∷ 0 ∷ 0 ∷ 0 ∷ 0 ∷ 0 ∷ 3 ∷ 0 ∷ 0 ∷ 0 ∷ 0 ∷ 0 ∷ 3 ∷
        65 ∷ 66 ∷ 67 ∷ 146 ∷ [] }
    ensures acknowledgement { ack_bytes (record { src = 1; dst = 0; prio = 1; next = 258 })
        ≡ 2 ∷ 2 ∷ 0 ∷ 1 ∷ 0 ∷ 0 ∷ 1 ∷ 0 ∷ 0 ∷ 1 ∷ 2 ∷ [] }
{}

/// A host probe of mapper 2 with its way back by 1 and -3, the reply of host 258, and a loopback probe.
pub fn bytes_of_probes()
    ensures probe { mapping_bytes (HostProbe 9 2 (pos 1 ∷ negsuc 2 ∷ []))
        ≡ 1 ∷ 0 ∷ 0 ∷ 0 ∷ 0 ∷ 0 ∷ 0 ∷ 0 ∷ 9 ∷ 0 ∷ 2 ∷ 2 ∷ 129 ∷ 189 ∷ [] }
    ensures reply { mapping_bytes (HostReply 7 258)
        ≡ 2 ∷ 0 ∷ 0 ∷ 0 ∷ 0 ∷ 0 ∷ 0 ∷ 0 ∷ 7 ∷ 1 ∷ 2 ∷ [] }
    ensures looped { mapping_bytes (Loopback 648518346341351431 258)
        ≡ 3 ∷ 9 ∷ 0 ∷ 0 ∷ 0 ∷ 0 ∷ 0 ∷ 0 ∷ 7 ∷ 1 ∷ 2 ∷ [] }
{}

/// Part 0 of 1 of host 2's table, of epoch 1 and mapper 0: by -3 back to the mapper and to host 0, and by 2, -1 to
/// host 1. An acknowledgement of part 3.
pub fn bytes_of_a_part()
    ensures part { mapping_bytes (Part record {
      epoch = 1;
      mapper = 0;
      dst = 2;
      part = 0;
      parts = 1;
      back = negsuc 2 ∷ [];
      entries = record { to = 0; walk = negsuc 2 ∷ [] } ∷ record { to = 1; walk = pos 2 ∷ negsuc 0 ∷ [] } ∷ [];
    })
        ≡ 4 ∷ 0 ∷ 0 ∷ 0 ∷ 1 ∷ 0 ∷ 0 ∷ 0 ∷ 2 ∷ 0 ∷ 1 ∷ 1 ∷ 189 ∷ 2 ∷ 0 ∷ 0 ∷ 1 ∷ 189 ∷ 0 ∷ 1 ∷ 2 ∷ 130 ∷ 191 ∷ [] }
    ensures acknowledgement { mapping_bytes (PartAck 1 2 3) ≡ 5 ∷ 0 ∷ 0 ∷ 0 ∷ 1 ∷ 0 ∷ 2 ∷ 3 ∷ [] }
{}
