// The parts of a line.
ghost use Rattle.std.specs.Prelude.{◌≡◌, ◌++◌, OnOk, decimal};
ghost use Rattle.log_text.specs.Lines.{names, head_text, names_text, term_text, creation_text, listing_text, header_text, caller_text, end_text};

use faults::Memory;
use itoa::Buffer;
use term_model::{Head, Row};

// Appends a number in decimal.
fn write_number(number: u64, out: &mut Vec<u8>) -> Result<(), Memory>
    ensures { OnOk result (out.new.items ≡ out.old.items ++ decimal number) }
{
    let mut digits = Buffer::new();
    out.extend_from_slice(digits.format(number).as_bytes())?;
    Ok(())
}

// Appends a head.
fn write_head(head: Head, out: &mut Vec<u8>) -> Result<(), Memory>
    ensures { OnOk result (out.new.items ≡ out.old.items ++ head_text head) }
{
    match head {
        Head::App(symbol) => {
            out.push(b's')?;
            write_number(symbol.0 as u64, out)
        }
        Head::Int(value) => {
            out.push(b'i')?;
            write_number(value, out)
        }
        Head::Nil => {
            out.push(b'e')?;
            Ok(())
        }
        Head::Cons => {
            out.push(b'c')?;
            Ok(())
        }
    }
}

// Appends a space and its number for each row.
fn write_names(rows: &[Row], out: &mut Vec<u8>) -> Result<(), Memory>
    ensures { OnOk result (out.new.items ≡ out.old.items ++ names_text (names rows.now)) }
{
    for row in rows {
        out.push(b' ')?;
        write_number(row.0 as u64, out)?;
    }
    Ok(())
}

// Appends a name, a head, the names of its arguments, and the end of the line.
fn write_term(row: Row, head: Head, args: &[Row], out: &mut Vec<u8>) -> Result<(), Memory>
    ensures { OnOk result (out.new.items
        ≡ out.old.items ++ term_text row.0 head (names args.now)) }
{
    write_number(row.0 as u64, out)?;
    out.push(b' ')?;
    write_head(head, out)?;
    write_names(args, out)?;
    out.push(b'\n')?;
    Ok(())
}

/// Appends what a creation notes, after its word.
pub(crate) fn write_creation(
    key: u64,
    head: Head,
    args: &[Row],
    row: Row,
    out: &mut Vec<u8>,
) -> Result<(), Memory>
    ensures { OnOk result (out.new.items
        ≡ out.old.items ++ creation_text key head (names args.now) row.0) }
{
    write_number(key, out)?;
    out.push(b' ')?;
    write_term(row, head, args, out)
}

/// Appends what another step notes, after its word.
pub(crate) fn write_listing(key: u64, rows: &[Row], out: &mut Vec<u8>) -> Result<(), Memory>
    ensures { OnOk result (out.new.items ≡ out.old.items ++ listing_text key (names rows.now)) }
{
    write_number(key, out)?;
    write_names(rows, out)?;
    out.push(b'\n')?;
    Ok(())
}

/// Appends the first line of a log: how many rows the store has, and how many callers.
pub(crate) fn write_header(rows: u32, callers: u32, out: &mut Vec<u8>) -> Result<(), Memory>
    ensures { OnOk result (out.new.items ≡ out.old.items ++ header_text rows callers) }
{
    out.extend_from_slice(b"# log ")?;
    write_number(rows as u64, out)?;
    out.push(b' ')?;
    write_number(callers as u64, out)?;
    out.push(b'\n')?;
    Ok(())
}

/// Appends the line of a caller.
pub(crate) fn write_caller(caller: u32, out: &mut Vec<u8>) -> Result<(), Memory>
    ensures { OnOk result (out.new.items ≡ out.old.items ++ caller_text caller) }
{
    out.extend_from_slice(b"# caller ")?;
    write_number(caller as u64, out)?;
    out.push(b'\n')?;
    Ok(())
}

/// Appends the last line of a log.
pub(crate) fn write_end(out: &mut Vec<u8>) -> Result<(), Memory>
    ensures { OnOk result (out.new.items ≡ out.old.items ++ end_text) }
{
    out.extend_from_slice(b"# end\n")?;
    Ok(())
}
