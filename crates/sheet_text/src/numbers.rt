// The numbers of a line.
ghost use Rattle.std.specs.Prelude.{◌≡◌, ◌+◌, ◌-◌, ◌*◌, ◌^◌, nat_lt, Some, None, if◌then◌else◌};
ghost use Rattle.std.specs.Char.{IsAsciiDigit};
ghost use Rattle.sheet_text.specs.Fields.{fields};
ghost use Rattle.sheet_text.specs.Numbers.{number_of, next_number, no_more, Gives};

use crate::Slip;
use crate::fields::split_field;

// A number with one digit more at its end, if that fits.
fn with_digit(number: u32, digit: u8) -> Option<u32>
    requires { IsAsciiDigit digit }
    ensures { let longer = number * 10 + (digit - 48) in result ≡ (if nat_lt longer (2 ^ 32) then Some longer else None) }
{
    let tens = number.checked_mul(10)?;
    tens.checked_add(u32::from(digit - b'0'))
}

// The number that a field says.
fn number(field: &[u8]) -> Result<u32, Slip>
    ensures { result ≡ number_of field.now }
{
    if !field.iter().all(u8::is_ascii_digit) {
        return Err(Slip::NotANumber);
    }
    let mut number = 0;
    for digit in field {
        let Some(longer) = with_digit(number, *digit) else {
            return Err(Slip::NumberTooLarge);
        };
        number = longer;
    }
    Ok(number)
}

// The number that is due next, and what follows it.
#[tactic(auto, unfolding(crate::specs::Numbers::next_number))]
pub(crate) fn next_number(bytes: &[u8]) -> Result<(u32, &[u8]), Slip>
    ensures { Gives result (next_number (fields bytes.now)) }
{
    let (field, rest) = split_field(bytes).ok_or(Slip::TooFewNumbers)?;
    Ok((number(field)?, rest))
}

// Nothing after the numbers that are due.
pub(crate) fn no_more(bytes: &[u8]) -> Result<(), Slip>
    ensures { result ≡ no_more (fields bytes.now) }
{
    match split_field(bytes) {
        Some(_) => Err(Slip::TooManyNumbers),
        None => Ok(()),
    }
}
