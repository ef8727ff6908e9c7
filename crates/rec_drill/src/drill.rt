// The drill's text, written line by line.
ghost use Rattle.std.specs.Prelude.{◌≡◌, ◌++◌, OnOk, IfOk};
ghost use Rattle.rec_drill.specs.Drill.{first_count, second_count, numeral, ended, term_line, drill_bytes};

use faults::Memory;
use std::alloc::Global;

const OPENING: &[u8] = b"REC-SPEC DRILL\n\
SORTS Nat\n\
CONS z : -> Nat\n\
s : Nat -> Nat\n\
OPNS plus mult : Nat Nat -> Nat\n\
VARS X Y : Nat\n\
RULES\n\
plus(X,z) -> X\n\
plus(X,s(Y)) -> s(plus(X,Y))\n\
mult(X,z) -> z\n\
mult(X,s(Y)) -> plus(mult(X,Y),X)\n\
EVAL\n";

fn first_count(i: u32) -> u32
    ensures { result ≡ first_count i }
{
    ((7 * u64::from(i) + 3) % 11) as u32
}

fn second_count(i: u32) -> u32
    ensures { result ≡ second_count i }
{
    ((5 * u64::from(i) + 1) % 13) as u32
}

// Appends `s(` round `z`, so many times.
fn push_numeral(text: &mut Vec<u8>, count: u32) -> Result<(), Memory>
    ensures { OnOk result (text.new.items ≡ text.old.items ++ numeral count) }
{
    for _i in 0..count {
        text.extend_from_slice(b"s(")?;
    }
    text.push(b'z')?;
    for _j in 0..count {
        text.push(b')')?;
    }
    Ok(())
}

// Appends the line of term i.
fn push_term(text: &mut Vec<u8>, i: u32) -> Result<(), Memory>
    ensures { OnOk result (text.new.items ≡ text.old.items ++ ended (term_line i)) }
{
    text.extend_from_slice(b"mult(")?;
    push_numeral(text, first_count(i))?;
    text.push(b',')?;
    push_numeral(text, second_count(i))?;
    text.extend_from_slice(b")\n")?;
    Ok(())
}

/// The specification `DRILL` as text: sums and products of unary numbers by four rules, and n
/// products to be rewritten. Term i, from 0 to n - 1, multiplies `(7 * i + 3) mod 11` by
/// `(5 * i + 1) mod 13`. The text has at most 216 + 76 * n bytes, and takes time in proportion to n.
pub fn drill_text(alloc: Global, n: u32) -> Result<Vec<u8>, Memory>
    ensures { IfOk result (λ text. text.items ≡ drill_bytes n) }
{
    let mut text = Vec::new(alloc);
    text.extend_from_slice(OPENING)?;
    for i in 0..n {
        push_term(&mut text, i)?;
    }
    text.extend_from_slice(b"END-SPEC\n")?;
    Ok(text)
}
