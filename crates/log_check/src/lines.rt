//! Lines of a text.

ghost use Rattle.std.specs.Prelude.{◌≡◌, ◌<◌, ◌∷◌, ◌++◌, [], length, IfSome, MatchOption};
ghost use Rattle.log_check.specs.Words.{Lacks, lines};

/// The bytes before and after the first line feed.
pub fn split_line(bytes: &[u8]) -> Option<(&[u8], &[u8])>
    ensures { MatchOption result (Lacks 10 bytes.now)
        (λ p. Lacks 10 p.0.now × (bytes.now ≡ p.0.now ++ 10 ∷ p.1.now)) }
{
    for (place, byte) in bytes.iter().enumerate() {
        if *byte == b'\n' {
            return Some((&bytes[..place], &bytes[place + 1..]));
        }
    }
    None
}

/// The first line, and what comes after it; None where there is no line.
pub fn next_line(bytes: &[u8]) -> Option<(&[u8], &[u8])>
    ensures lines { MatchOption result (lines bytes.now ≡ [])
        (λ p. lines bytes.now ≡ p.0.now ∷ lines p.1.now) }
    ensures less { IfSome result (λ p. length p.1.now < length bytes.now) }
{
    if bytes.is_empty() {
        return None;
    }
    match split_line(bytes) {
        Some(parts) => Some(parts),
        None => Some((bytes, &[])),
    }
}
