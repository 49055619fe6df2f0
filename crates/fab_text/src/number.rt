//! Numbers and turns.

ghost use Rattle.std.specs.Prelude.{◌≡◌, nat_le, IsTrue, if◌then◌else◌};
ghost use Rattle.std.specs.List.{list_all};
ghost use Rattle.std.specs.Str.Parse.{digits_value};
ghost use Rattle.fab_text.specs.Word.{is_digit, number_test, number_within, u32_of, turn_of};

use crate::NumFault;

// The greatest turn; the least is its negative.
const MAX_TURN: u32 = 15;

/// A number: one or more digits. Leading zeros are allowed.
///
/// `NotNumber` where the word has another form, `TooLarge` where its value is 2^32 or more.
pub fn read_u32(w: &[u8]) -> Result<u32, NumFault>
    ensures { result ≡ u32_of w.now }
{
    read_within(w, u32::MAX)
}

/// A turn: a number, which may have one sign `+` or `-` before it.
///
/// `NotNumber` where the word has another form, `TooLarge` where its value is outside -15 to 15.
pub fn read_turn(w: &[u8]) -> Result<i8, NumFault>
    ensures { result ≡ turn_of w.now }
{
    match w {
        [b'+', digits @ ..] => Ok(read_within(digits, MAX_TURN)? as i8),
        [b'-', digits @ ..] => Ok(-(read_within(digits, MAX_TURN)? as i8)),
        _ => Ok(read_within(w, MAX_TURN)? as i8),
    }
}

// A number that is at most so large. Its form is tested before its value.
fn read_within(w: &[u8], most: u32) -> Result<u32, NumFault>
    ensures { result ≡ number_within most w.now }
{
    if !is_number(w) {
        return Err(NumFault::NotNumber);
    }
    value_within(w, most).ok_or(NumFault::TooLarge)
}

// Whether a word is one or more digits.
#[tactic(auto, using(crate::proofs::Forms::number_test_long))]
fn is_number(w: &[u8]) -> bool
    ensures { result ≡ number_test w.now }
{
    !w.is_empty() && are_digits(w)
}

// Whether each byte is a digit.
fn are_digits(w: &[u8]) -> bool
    ensures { result ≡ list_all is_digit w.now }
{
    w.iter().all(|b| matches!(b, b'0'..=b'9'))
}

// The value of digits, where it is at most so large.
fn value_within(digits: &[u8], most: u32) -> Option<u32>
    requires { IsTrue (number_test digits.now) }
    ensures { result ≡ (if nat_le (digits_value 10 digits.now) most then Some (digits_value 10 digits.now) else None) }
{
    let mut value: u64 = 0;
    for digit in digits {
        value = value * 10 + u64::from(*digit - b'0');
        if value > u64::from(most) {
            return None;
        }
    }
    Some(value as u32)
}
