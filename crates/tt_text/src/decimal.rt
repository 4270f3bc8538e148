//! Decimal numbers that words are.

ghost use Rattle.std.specs.Prelude.{◌≡◌, ◌≤◌, length, true};
ghost use Rattle.std.specs.Char.{is_ascii_digit};
ghost use Rattle.std.specs.List.{list_all};
ghost use Rattle.std.specs.Str.Parse.{digits_value};
ghost use Rattle.tt_text.specs.Decimal.{at_most, decimal_of};

// Whether each byte is a decimal digit.
fn are_digits(word: &[u8]) -> bool
    ensures { result ≡ list_all is_ascii_digit word.now }
{
    word.iter().all(|c| c.is_ascii_digit())
}

// The number that up to 20 decimal digits are.
fn value_of(digits: &[u8]) -> u128
    requires short { length digits.now ≤ 20 }
    requires digits { list_all is_ascii_digit digits.now ≡ true }
    ensures { result ≡ digits_value 10 digits.now }
{
    let mut value = 0;
    for c in digits {
        value = value * 10 + u128::from(*c - b'0');
    }
    value
}

/// The number that a word of 1 to 20 decimal digits is. Leading zeros are allowed, so it is below
/// 10 ^ 20.
pub fn decimal_number(word: &[u8]) -> Option<u128>
    ensures { result ≡ decimal_of word.now }
{
    if word.is_empty() || word.len() > 20 || !are_digits(word) {
        None
    } else {
        Some(value_of(word))
    }
}

/// The number that a word of 1 to 20 decimal digits is, if it is at most `most`. Leading zeros are
/// allowed.
pub fn read_decimal(word: &[u8], most: u64) -> Option<u64>
    ensures { result ≡ at_most most (decimal_of word.now) }
{
    let value = decimal_number(word)?;
    if value <= u128::from(most) {
        Some(value as u64)
    } else {
        None
    }
}
