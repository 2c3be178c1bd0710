//! A word that is a number.

ghost use Rattle.std.specs.Prelude.{◌≡◌, ◌+◌, ◌-◌, ◌*◌, ◌<◌, ◌≤◌, IsTrue, length};
ghost use Rattle.std.specs.List.{list_all};
ghost use Rattle.command_words.specs.Numbers.{has_lead, is_digit, is_number, number_said};
ghost use Rattle.command_words.specs.Numbers.{decimal_value};

/// A zero stands before another digit.
fn has_lead(word: &[u8]) -> bool
    ensures { result ≡ has_lead word.now }
{
    match word {
        [first, _, ..] => *first == b'0',
        _ => false,
    }
}

/// All bytes are digits.
fn are_digits(word: &[u8]) -> bool
    ensures { result ≡ list_all is_digit word.now }
{
    word.iter().all(|byte| b'0' <= *byte && *byte <= b'9')
}

/// The word is a number: 1 to 9 digits.
fn is_number(word: &[u8]) -> bool
    ensures { result ≡ is_number word.now }
{
    1 <= word.len() && word.len() <= 9 && are_digits(word) && !has_lead(word)
}

/// The value with one more digit.
fn next_value(value: u32, digit: u8) -> u32
    requires few { value < 100000000 }
    requires digit { IsTrue (is_digit digit) }
    ensures { result ≡ 10 * value + (digit - 48) }
{
    10 * value + u32::from(digit - b'0')
}

/// The value of at most nine digits.
fn value_of(word: &[u8]) -> u32
    requires few { length word.now ≤ 9 }
    requires digits { IsTrue (list_all is_digit word.now) }
    ensures { result ≡ decimal_value word.now }
{
    let mut value = 0u32;
    'digits: for byte in word {
        value = next_value(value, *byte);
    }
    value
}

/// The number that a word of a command line says: 1 to 9 decimal digits, of which the first is a
/// zero only where it is the only one. None where the word is no such number.
pub fn number_of(word: &[u8]) -> Option<u32>
    ensures { result ≡ number_said word.now }
{
    if is_number(word) {
        Some(value_of(word))
    } else {
        None
    }
}
