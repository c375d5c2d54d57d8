//! The pieces of a line: words that are given, numbers and codes.
ghost use Rattle.std.specs.Prelude.{◌≡◌, ◌≤◌, ◌<◌, ◌+◌, ◌^◌, ◌==◌, ◌||◌, ◌&&◌, not, true, length, nat_le};
ghost use Rattle.std.specs.Prelude.{option_map, if◌then◌else◌, Some, None, nat_lt, pos, neg_ℤ};
ghost use Rattle.std.specs.List.{list_all, prefix_len};
ghost use Rattle.plain_machine.specs.Words.{is_digit, begins_with, digits_value};
ghost use Rattle.journal_text.specs.Reading.{behind, is_number, number_at, code_at, counted_off, claim_at};

/// What follows some bytes at the front of others.
pub(crate) fn behind<'a>(text: &[u8], bytes: &'a [u8]) -> Option<&'a [u8]>
    ensures { option_map (λ rest. rest.now) result ≡ behind text.now bytes.now }
{
    bytes.strip_prefix(text)
}

fn is_digit(c: u8) -> bool
    ensures { result ≡ is_digit c }
{
    c.is_ascii_digit()
}

fn digits_len(bytes: &[u8]) -> usize
    ensures exact { result ≡ prefix_len is_digit bytes.now }
    ensures within { result ≤ length bytes.now }
{
    bytes.iter().take_while(|c| is_digit(**c)).count()
}

fn begins_with_zero(digits: &[u8]) -> bool
    ensures { result ≡ begins_with (λ c. c == 48) digits.now }
{
    match digits {
        [first, ..] => *first == b'0',
        [] => false,
    }
}

/// Whether digits are few enough, and have no leading zeros.
fn is_short(digits: &[u8]) -> bool
    ensures { result ≡ (nat_le 1 (length digits.now) &&
        (nat_le (length digits.now) 10 && (length digits.now == 1 ||
        not (begins_with (λ c. c == 48) digits.now)))) }
{
    1 <= digits.len() && digits.len() <= 10 && (digits.len() == 1 || !begins_with_zero(digits))
}

/// The number that some digits spell.
fn value(digits: &[u8]) -> u64
    requires all { list_all is_digit digits.now ≡ true }
    requires few { length digits.now ≤ 10 }
    ensures { result ≡ digits_value 0 digits.now }
{
    let mut n = 0u64;
    'digits: for d in digits {
        n = 10 * n + u64::from(*d - b'0');
    }
    n
}

/// The number of some digits without leading zeros.
fn number_of(digits: &[u8]) -> Option<u32>
    requires { list_all is_digit digits.now ≡ true }
    ensures { result ≡ (if is_number digits.now then Some (digits_value 0 digits.now) else None) }
{
    if !is_short(digits) {
        return None;
    }
    u32::try_from(value(digits)).ok()
}

/// A number, and what follows it.
pub(crate) fn number(bytes: &[u8]) -> Option<(u32, &[u8])>
    ensures { option_map (λ r. (r.0, r.1.now)) result ≡ number_at bytes.now }
{
    let (digits, rest) = bytes.split_at(digits_len(bytes));
    match number_of(digits) {
        Some(n) => Some((n, rest)),
        None => None,
    }
}

/// A code from 0 on.
fn code_from_zero(n: u32) -> Option<i32>
    ensures { result ≡ (if nat_lt n (2 ^ 31) then Some (pos n) else None) }
{
    i32::try_from(n).ok()
}

/// A code below 0, by its distance from 0.
fn code_below_zero(n: u32) -> Option<i32>
    ensures { result ≡ (if nat_le 1 n && nat_le n (2 ^ 31) then Some (neg_ℤ (pos n)) else None) }
{
    if 1 <= n && n <= 1 << 31 {
        Some((-i64::from(n)) as i32)
    } else {
        None
    }
}

/// A code, and what follows it.
pub(crate) fn code(bytes: &[u8]) -> Option<(i32, &[u8])>
    ensures { option_map (λ r. (r.0, r.1.now)) result ≡ code_at bytes.now }
{
    if let Some(behind_dash) = behind(b"-", bytes) {
        let (n, rest) = number(behind_dash)?;
        return Some((code_below_zero(n)?, rest));
    }
    let (n, rest) = number(bytes)?;
    Some((code_from_zero(n)?, rest))
}

/// Claimed lines behind a line with the number of their bytes, and what follows them.
pub(crate) fn claim(bytes: &[u8]) -> Option<(&[u8], &[u8])>
    ensures { option_map (λ r. (r.0.now, r.1.now)) result ≡ claim_at bytes.now }
{
    let (count, rest) = number(behind(b"lines ", bytes)?)?;
    counted_off(count as usize, behind(b"\n", rest)?)
}

/// So many bytes, and what follows them.
fn counted_off(count: usize, bytes: &[u8]) -> Option<(&[u8], &[u8])>
    ensures { option_map (λ r. (r.0.now, r.1.now)) result ≡ counted_off (count, bytes.now) }
{
    if bytes.len() < count {
        return None;
    }
    Some(bytes.split_at(count))
}
