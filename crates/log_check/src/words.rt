//! Words and numbers of a line.

ghost use Rattle.std.specs.Prelude.{◌≡◌, ◌<◌, ◌≤◌, ◌^◌, ◌∷◌, [], length, not, IfSome, MatchOption};
ghost use Rattle.std.specs.List.{list_all};
ghost use Rattle.std.specs.Option.{option_map};
ghost use Rattle.log_check.specs.Form.{number_below};
ghost use Rattle.log_check.specs.Words.{words, words_after, capped, is_digit, has_no_leading_zero, number_in, with_digits};

/// The first word of a line, and the line from the next space on.
pub fn first_word(bytes: &[u8]) -> (&[u8], &[u8])
    ensures words { words bytes.now ≡ result.0.now ∷ words_after result.1.now }
    ensures size { length result.1.now ≤ length bytes.now }
{
    for (place, byte) in bytes.iter().enumerate() {
        if *byte == b' ' {
            return (&bytes[..place], &bytes[place..]);
        }
    }
    (bytes, &[])
}

/// The first word after a space, and the line from the next space on; None at the end of the line.
pub fn next_word(rest: &[u8]) -> Option<(&[u8], &[u8])>
    ensures words { MatchOption result (words_after rest.now ≡ [])
        (λ p. words_after rest.now ≡ p.0.now ∷ words_after p.1.now) }
    ensures less { IfSome result (λ p. length p.1.now < length rest.now) }
{
    let (_, bytes) = rest.split_first()?;
    Some(first_word(bytes))
}

/// The number that a word is in decimal, or 2^64 where it is greater; None where it is none, or has
/// leading zeros.
pub fn capped_number_of(word: &[u8]) -> Option<u128>
    ensures { result ≡ option_map capped (number_in word.now) }
{
    if leads_with_zero(word) || !all_digits(word) {
        return None;
    }
    Some(value_of(word))
}

/// The number below 2^64 that a word is in decimal; None where it is none, or has leading zeros.
pub(crate) fn number_of(word: &[u8]) -> Option<u64>
    ensures { result ≡ number_below (2 ^ 64) word.now }
{
    let value = capped_number_of(word)?;
    if value < 1 << 64 {
        Some(value as u64)
    } else {
        None
    }
}

/// Whether a word is empty, or begins with a 0 that isn't all of it.
fn leads_with_zero(word: &[u8]) -> bool
    ensures { has_no_leading_zero word.now ≡ not result }
{
    match word.split_first() {
        Some((first, others)) => *first == b'0' && !others.is_empty(),
        None => true,
    }
}

fn all_digits(word: &[u8]) -> bool
    ensures { result ≡ list_all is_digit word.now }
{
    word.iter().all(|byte| is_digit(*byte))
}

fn is_digit(byte: u8) -> bool
    ensures { result ≡ is_digit byte }
{
    (b'0'..=b'9').contains(&byte)
}

/// The number that digits are in decimal, or 2^64 where it is greater.
fn value_of(digits: &[u8]) -> u128
    ensures { result ≡ capped (with_digits 0 digits.now) }
{
    let mut value: u128 = 0;
    for byte in digits {
        value = (value * 10 + u128::from(byte.saturating_sub(b'0'))).min(1 << 64);
    }
    value
}
