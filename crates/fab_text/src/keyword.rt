//! Keywords.

ghost use Rattle.std.specs.Prelude.{◌≡◌, bytes_eq, length};

/// Whether a word is a keyword. Most are of another length: of these no more is compared.
#[inline(always)]
pub fn is_keyword(word: &[u8], keyword: &[u8]) -> bool
    ensures { result ≡ bytes_eq word.now keyword.now }
{
    word.len() == keyword.len() && are_equal(word, keyword)
}

// Whether two words of one length are the same. It stands in its callers, where the keyword is known: so it is compared
// without a loop.
#[inline(always)]
#[tactic(auto, using(crate::proofs::Keywords::same_bytes, crate::proofs::Keywords::other_byte))]
fn are_equal(word: &[u8], keyword: &[u8]) -> bool
    requires { length word.now ≡ length keyword.now }
    ensures { result ≡ bytes_eq word.now keyword.now }
{
    'bytes: for i in 0..keyword.len() {
        if word[i] != keyword[i] {
            return false;
        }
    }
    true
}
