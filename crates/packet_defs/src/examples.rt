//! Worked examples, computed by the prover: each function's contract is the example, and its body is empty.

ghost use Rattle.std.specs.Prelude.{◌≡◌, ◌∷◌, [], pos, negsuc, codes, take, length, ◌++◌, true, false};
ghost use Rattle.packet_defs.specs.Bits.{bits_of, zeros, polynomial, product, divisor, remainder};
ghost use Rattle.packet_defs.specs.Crc.{crc, contribution, xor_bytes};
ghost use Rattle.packet_defs.specs.RouteByte.{route_byte, turn_of};
ghost use Rattle.packet_defs.specs.Packet.{front_turn, stripped, stripped_times, difference, crc_byte};
ghost use Rattle.packet_defs.specs.Burst.{flipped, burst, may_flip};
ghost use Rattle.packet_defs.specs.Host.{decode, kind_of};
ghost use Rattle.packet_defs.specs.Examples.{short_packet, frame};
ghost use Rattle.packet_defs.specs.declared.kind.Kind.{Kind};
ghost use Rattle.packet_defs.specs.declared.host_drop.HostDrop.{HostDrop};

/// The CRC of the nine digits is 0xF4, of nothing 0.
pub fn checks()
    ensures nine_digits { crc (codes "123456789") ≡ 244 }
    ensures of_nothing { crc [] ≡ 0 }
    ensures of_one_byte { crc (1 ∷ []) ≡ 7 }
    ensures at_two_places { contribution 131 2 ≡ 182 }
{}

/// Bits of bytes, polynomials by their numbers, and what the divisor 0x107 leaves.
pub fn polynomials()
    ensures bits { bits_of (131 ∷ []) ≡ true ∷ false ∷ false ∷ false ∷ false ∷ false ∷ true ∷ true ∷ [] }
    ensures number { polynomial (true ∷ false ∷ true ∷ []) ≡ 5 }
    ensures times_x_plus_one { product (true ∷ true ∷ []) divisor ≡ 777 }
    ensures of_the_divisor { remainder (true ∷ zeros 5 ++ true ∷ true ∷ true ∷ []) ≡ 0 }
    ensures of_the_eighth_power { remainder (true ∷ zeros 8) ≡ 7 }
    ensures sum { xor_bytes (1 ∷ 2 ∷ []) (3 ∷ 3 ∷ []) ≡ 2 ∷ 1 ∷ [] }
{}

/// A packet of one turn, 83 00 05 AD, and the same after the switch, 00 05 1B.
pub fn wire_bytes()
    ensures whole { short_packet ≡ 131 ∷ 0 ∷ 5 ∷ 173 ∷ [] }
    ensures next { front_turn short_packet ≡ Some (pos 3) }
    ensures after_the_switch { stripped short_packet ≡ 0 ∷ 5 ∷ 27 ∷ [] }
    ensures at_its_end { front_turn (0 ∷ 5 ∷ 27 ∷ []) ≡ None }
    ensures back { route_byte (negsuc 2) ≡ 189 }
    ensures least { turn_of 177 ≡ Some (negsuc 14) }
    ensures between { turn_of 144 ≡ None }
    ensures above { turn_of 192 ≡ None }
{}

/// What a host answers to four packets.
pub fn drops_at_a_host()
    ensures route_left { decode (131 ∷ 0 ∷ 5 ∷ 173 ∷ []) ≡ Err HostDrop.RouteLeft }
    ensures bad_crc { decode (0 ∷ 5 ∷ 26 ∷ []) ≡ Err HostDrop.BadCrc }
    ensures unknown_type { decode (0 ∷ 7 ∷ 21 ∷ []) ≡ Err HostDrop.UnknownType }
    ensures mapping { kind_of 5 ≡ Some Kind.Mapping }
    ensures accepted { decode (0 ∷ 5 ∷ 27 ∷ []) ≡ Ok (Kind.Mapping, []) }
    ensures too_short { decode (0 ∷ 0 ∷ []) ≡ Err HostDrop.Malformed }
    ensures no_head { decode (0 ∷ []) ≡ Err HostDrop.Malformed }
{}

/// A frame whose bits 6, 7 and 13 are flipped: its route byte is 0x80, and wherever it comes to a host it is dropped.
pub fn flip_of_a_frame()
    ensures thirty_bytes { length frame ≡ 30 }
    ensures check_byte { crc_byte frame ≡ 131 }
    ensures begins { take 3 (flipped frame 6 193) ≡ 128 ∷ 4 ∷ 8 ∷ [] }
    ensures three_bits { bits_of (flipped (0 ∷ 0 ∷ []) 6 193) ≡ burst 16 6 193 }
    ensures to_the_end { may_flip frame 232 1 ≡ true }
    ensures past_the_end { may_flip frame 233 1 ≡ false }
    ensures by_nothing { may_flip frame 6 0 ≡ false }
    ensures sound { difference frame ≡ 0 }
    ensures dropped { decode (stripped_times 1 (flipped frame 6 193)) ≡ Err HostDrop.BadCrc }
{}
