//! The words of a drill, and the digits of numbers.
ghost use Rattle.std.specs.Prelude.{◌≡◌, ◌≤◌, true, [], ◌∷◌, length, map, string_bytes};
ghost use Rattle.std.specs.List.{list_all};
ghost use Rattle.plain_machine.specs.Words.{is_digit, digits_value};
ghost use Rattle.plain_machine.specs.Drill.{drill_of};
ghost use Rattle.command_words.specs.Words.{number_of};

/// The number of a drill, where the words behind the program's name are `drill` and a number of one to four digits.
pub fn drill_of(words: &[String]) -> Option<u32>
    ensures { result ≡ drill_of (map string_bytes words.now) }
{
    match words {
        [word, number] => drill_number(word.as_str(), number.as_str()),
        _ => None,
    }
}

/// The number of a drill, of two words.
fn drill_number(word: &str, number: &str) -> Option<u32>
    ensures { result ≡ drill_of (word.now ∷ number.now ∷ []) }
{
    if word == "drill" {
        number_of(number.as_bytes())
    } else {
        None
    }
}

/// The number that one to four digits spell.
fn number_of(word: &[u8]) -> Option<u32>
    ensures { result ≡ number_of word.now }
{
    if are_digits(word) && 1 <= word.len() && word.len() <= 4 {
        Some(value(word))
    } else {
        None
    }
}

pub(crate) fn are_digits(bytes: &[u8]) -> bool
    ensures { result ≡ list_all is_digit bytes.now }
{
    bytes.iter().all(|c| is_digit(*c))
}

fn is_digit(c: u8) -> bool
    ensures { result ≡ is_digit c }
{
    c.is_ascii_digit()
}

/// The number that at most four digits spell.
pub(crate) fn value(digits: &[u8]) -> u32
    requires all { list_all is_digit digits.now ≡ true }
    requires few { length digits.now ≤ 4 }
    ensures { result ≡ digits_value 0 digits.now }
{
    let mut n = 0u32;
    for d in digits {
        n = 10 * n + u32::from(*d - b'0');
    }
    n
}
