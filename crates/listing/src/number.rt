ghost use Rattle.std.specs.Prelude.{◌≡◌, ℕ, ◌-◌, ◌^◌, min, if◌then◌else◌, Ok, Err};
ghost use Rattle.refusal.specs.declared.Refusal.TheVariants.{Form};
ghost use Rattle.listing.specs.Numeral.{numeral, value_of};
ghost use Rattle.std.specs.Str.{all_ascii_digits};

use refusal::Refusal;

// The number that digits write, or the largest u32 where it is larger; a byte that is no digit is a fault in form. By hand: `parse` refuses
// a number above u32, which is right in form, and takes a sign.
fn digits(text: &[u8]) -> Result<u32, Refusal>
    ensures { result ≡ (if all_ascii_digits text.now then Ok (min (value_of text.now) (2 ^ 32 - 1)) else Err Form) }
{
    let mut value = 0u32;
    for b in text {
        let digit = char::from(*b).to_digit(10).ok_or(Refusal::Form)?;
        // a number too large for a u32 counts as the largest, which is out of every range
        value = value.saturating_mul(10).saturating_add(digit);
    }
    Ok(value)
}

// The number that a text writes, or the largest u32 where it is larger; a text that is no number is a fault in form.
pub(crate) fn number(text: &[u8]) -> Result<u32, Refusal>
    ensures { result ≡ (if numeral text.now then Ok (min (value_of text.now) (2 ^ 32 - 1)) else Err Form) }
{
    match text {
        [] | [b'0', _, ..] => Err(Refusal::Form),
        _ => digits(text),
    }
}
