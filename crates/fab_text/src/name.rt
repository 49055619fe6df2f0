//! Names of hosts and switches.

ghost use Rattle.std.specs.Prelude.{◌≡◌};
ghost use Rattle.std.specs.List.{list_all};
ghost use Rattle.fab_text.specs.Word.{is_letter, is_name_byte, name_test};

/// Whether a word is a name: 1 to 16 bytes of `a` to `z`, `0` to `9` and `_`, the first of them a letter.
#[tactic(auto, using(crate::proofs::Forms::name_test_long))]
pub fn is_name(w: &[u8]) -> bool
    ensures { result ≡ name_test w.now }
{
    1 <= w.len() && w.len() <= 16 && begins_name(w[0]) && are_name_bytes(w)
}

// Whether each byte may stand in a name.
fn are_name_bytes(w: &[u8]) -> bool
    ensures { result ≡ list_all is_name_byte w.now }
{
    w.iter().all(|b| is_part_of_name(*b))
}

// Whether a byte may stand in a name.
fn is_part_of_name(b: u8) -> bool
    ensures { result ≡ is_name_byte b }
{
    matches!(b, b'a'..=b'z' | b'0'..=b'9' | b'_')
}

// Whether a byte may be the first of a name.
fn begins_name(b: u8) -> bool
    ensures { result ≡ is_letter b }
{
    matches!(b, b'a'..=b'z')
}
