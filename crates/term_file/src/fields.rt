//! Fields of a file, read from the left. `total` is the length of the file.
ghost use Rattle.std.specs.Prelude.{◌≡◌, ◌-◌, ◌≤◌, length, nat_le, nat_eq, IfOk};
ghost use Rattle.std.specs.Cmp.Lexicographic.{pointwise};
ghost use Rattle.std.specs.List.{list_all};
ghost use Rattle.read_faults.specs.declared.fail.ReadFail.TheVariants.{Refused};
ghost use Rattle.tree_text.specs.NameBytes as name_bytes;
ghost use Rattle.term_file.specs.File as file;
ghost use Rattle.term_file.specs.Reading as spec;
ghost use Rattle.term_file.specs.Outcome.{Gives};

use byteorder::{BigEndian, ByteOrder};
use faults::kinds;
use read_faults::{ReadFail, refused};

/// The kind of a field that breaks its rule.
const BAD_FILE: u8 = 18;

/// The bytes that a file begins with.
pub(crate) const MAGIC: &[u8; 8] = b"RECTERM1";

/// The refusal of a field that is cut by the end.
pub(crate) fn cut(total: usize) -> ReadFail
    ensures { result ≡ Refused 3 total }
{
    refused(kinds::UNENDED, total)
}

/// The refusal of a field that breaks its rule, of which these are the bytes from it on.
pub(crate) fn bad_at(total: usize, bytes: &[u8]) -> ReadFail
    ensures { result ≡ Refused 18 (total - length bytes.now) }
{
    refused(BAD_FILE, total.saturating_sub(bytes.len()))
}

/// A number of one byte, and the bytes after it.
pub(crate) fn byte_at(total: usize, bytes: &[u8]) -> Result<(u8, &[u8]), ReadFail>
    ensures { Gives (λ x. (x.0, x.1.now)) result (spec.number_at total 1 bytes.now) }
{
    match bytes.split_first() {
        Some((first, rest)) => Ok((*first, rest)),
        None => Err(cut(total)),
    }
}

/// A number of four bytes, and the bytes after it.
pub(crate) fn u32_at(total: usize, bytes: &[u8]) -> Result<(u32, &[u8]), ReadFail>
    ensures { Gives (λ x. (x.0, x.1.now)) result (spec.number_at total 4 bytes.now) }
{
    if bytes.len() < 4 {
        return Err(cut(total));
    }
    Ok((BigEndian::read_u32(bytes), &bytes[4..]))
}

/// A number of eight bytes, and the bytes after it.
pub(crate) fn u64_at(total: usize, bytes: &[u8]) -> Result<(u64, &[u8]), ReadFail>
    ensures { Gives (λ x. (x.0, x.1.now)) result (spec.number_at total 8 bytes.now) }
{
    if bytes.len() < 8 {
        return Err(cut(total));
    }
    Ok((BigEndian::read_u64(bytes), &bytes[8..]))
}

/// A count of at most so many.
#[tactic(auto, unfolding(crate::specs::Reading::number_where))]
pub(crate) fn count_at(total: usize, most: u32, bytes: &[u8]) -> Result<(u32, &[u8]), ReadFail>
    ensures read { Gives (λ x. (x.0, x.1.now)) result
        (spec.number_where total 4 (λ n. nat_le n most) bytes.now) }
    ensures few { IfOk result (λ x. x.0 ≤ most) }
{
    let (count, rest) = u32_at(total, bytes)?;
    if count > most {
        return Err(bad_at(total, bytes));
    }
    Ok((count, rest))
}

/// The bytes after the first eight, which are the same in all files.
#[tactic(auto, unfolding(crate::specs::Reading::text_where))]
pub(crate) fn after_magic(total: usize, bytes: &[u8]) -> Result<&[u8], ReadFail>
    ensures { Gives (λ rest. (file.magic, rest.now)) result
        (spec.text_where total 8 (pointwise nat_eq file.magic) bytes.now) }
{
    if bytes.len() < 8 {
        return Err(cut(total));
    }
    let (start, rest) = bytes.split_at(8);
    if start != MAGIC.as_slice() {
        return Err(bad_at(total, bytes));
    }
    Ok(rest)
}

/// Whether a byte may stand in a name: from space to tilde.
fn is_printable(byte: u8) -> bool
    ensures { result ≡ name_bytes.is_printable byte }
{
    (b' '..=b'~').contains(&byte)
}

fn all_printable(bytes: &[u8]) -> bool
    ensures { result ≡ list_all name_bytes.is_printable bytes.now }
{
    bytes.iter().all(|byte| is_printable(*byte))
}

/// A name of so many bytes, and the bytes after it.
#[tactic(auto, unfolding(crate::specs::Reading::text_where))]
pub(crate) fn name_at(total: usize, size: usize, bytes: &[u8]) -> Result<(&[u8], &[u8]), ReadFail>
    ensures { Gives (λ x. (x.0.now, x.1.now)) result
        (spec.text_where total size (list_all name_bytes.is_printable) bytes.now) }
{
    if bytes.len() < size {
        return Err(cut(total));
    }
    let (name, rest) = bytes.split_at(size);
    if !all_printable(name) {
        return Err(bad_at(total, bytes));
    }
    Ok((name, rest))
}
