//! Bytes in hexadecimal.

ghost use Rattle.std.specs.Prelude.{◌≡◌, ◌<◌, ◌*◌, ◌++◌, length, slice_index, OnOk};
ghost use Rattle.hex.specs.Hex.{encode_lower, lower_digits};

use std::alloc::AllocError;

/// Puts two digits for each byte after a text, in lower case.
#[inline(never)]
pub(crate) fn append_hex(text: &mut Vec<u8>, bytes: &[u8]) -> Result<(), AllocError>
    ensures { OnOk result (text.new.items ≡ text.old.items ++ encode_lower bytes.now) }
{
    let Some(count) = bytes.len().checked_mul(2) else {
        return Err(AllocError);
    };
    let from = text.len();
    let Some(end) = from.checked_add(count) else {
        return Err(AllocError);
    };
    text.resize(end, 0)?;
    write_digits(bytes, &mut text[from..]);
    Ok(())
}

// Writes two digits for each byte. None is looked up, so that many are written at once.
fn write_digits(input: &[u8], output: &mut [u8])
    requires { length output.old ≡ 2 * length input.now }
    ensures { output.new ≡ encode_lower input.now }
{
    'bytes: for i in 0..input.len() {
        let byte = input[i];
        output[2 * i] = digit(byte / 16);
        output[2 * i + 1] = digit(byte % 16);
    }
}

// The digit of a value.
#[inline(always)]
#[tactic(auto, using(crate::proofs::Reckoned::digit_low, crate::proofs::Reckoned::digit_high))]
fn digit(value: u8) -> u8
    requires { value < 16 }
    ensures { result ≡ slice_index lower_digits value }
{
    if value < 10 {
        b'0' + value
    } else {
        b'a' + (value - 10)
    }
}
