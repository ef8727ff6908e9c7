//! Writes the items of a term from the last to the first, with an explicit stack of open groups.
ghost use Rattle.std.specs.Prelude.{◌≡◌, ◌++◌, ◌∷◌, ◌<◌, [], length, IfOk, OnOk, OnErr};
ghost use Rattle.std.specs.List.{list_all};
ghost use Rattle.tree_text.specs.NameBytes as name_bytes;
ghost use Rattle.tree_text.specs.Canonical as canonical;
ghost use Rattle.tree_text.specs.Canonical.{spelling};
ghost use Rattle.tree_text.specs.Writing as steps;
ghost use Rattle.tree_text.specs.Writing.{IsHeld, AreHeld, IsItemHeld};

use crate::backwards::Backwards;
use crate::name_bytes::{begins_name, continues_name};
use faults::Memory;
use itoa::Buffer;
use sequences::Stack;
use std::alloc::{AllocError, Global};
use symbol_pool::Symbols;
use term_model::{Item, Symbol};

/// A group that is open: the arguments of a symbol or the elements of a list, of which so many are
/// left.
#[derive(Clone, Copy)]
pub(crate) struct Frame {
    pub(crate) symbol: Option<Symbol>,
    pub(crate) left: usize,
}

/// The text so far, the open groups, and how many cells came where the rest of a list is due.
#[derive(Drop)]
pub(crate) struct Writer {
    pub(crate) text: Backwards,
    pub(crate) frames: Stack<Frame>,
    pub(crate) cells: usize,
}

// Whether a name can be plain.
fn is_plain(name: &[u8]) -> bool
    ensures { result ≡ canonical.is_plain name.now }
{
    match name.split_first() {
        None => false,
        Some((first, rest)) => begins_name(*first) && all_continue(rest),
    }
}

fn all_continue(bytes: &[u8]) -> bool
    ensures { result ≡ list_all name_bytes.continues_name bytes.now }
{
    bytes.iter().all(|byte| continues_name(*byte))
}

fn put_quoted(text: &mut Backwards, name: &[u8]) -> Result<(), Memory>
    ensures { OnOk result (text.new ≡ 34 ∷ canonical.escaped name.now ++ 34 ∷ text.old) }
{
    text.put_byte(b'"')?;
    let mut at = name.len();
    while at > 0 {
        at -= 1;
        let byte = name[at];
        text.put_byte(byte)?;
        if byte == b'"' || byte == b'\\' {
            text.put_byte(b'\\')?;
        }
    }
    text.put_byte(b'"')?;
    Ok(())
}

fn put_name(text: &mut Backwards, symbols: &Symbols, symbol: Symbol) -> Result<(), Memory>
    requires { symbol.0 < length symbols.now }
    ensures { OnOk result (text.new ≡ spelling symbols.now symbol ++ text.old) }
{
    let name = symbols.name(symbol);
    if is_plain(name) {
        text.put(name)?;
        Ok(())
    } else {
        put_quoted(text, name)
    }
}

fn put_opening(
    text: &mut Backwards,
    symbols: &Symbols,
    symbol: Option<Symbol>,
) -> Result<(), Memory>
    requires { IsHeld symbols.now symbol }
    ensures { OnOk result (text.new ≡ steps.opening (spelling symbols.now) symbol ++ text.old) }
{
    match symbol {
        Some(symbol) => {
            text.put_byte(b'(')?;
            put_name(text, symbols, symbol)
        }
        None => {
            text.put_byte(b'[')?;
            Ok(())
        }
    }
}

impl Writer {
    /// No text yet, and room for so many bytes.
    pub(crate) fn new(alloc: Global, size: usize) -> Result<Self, AllocError>
        ensures { IfOk result (λ w. w ≡ record { text = []; frames = []; cells = 0 }) }
    {
        Ok(Writer {
            text: Backwards::new(alloc, size)?,
            frames: Stack::new(alloc),
            cells: 0,
        })
    }

    // A term was written.
    fn arrive(&mut self, symbols: &Symbols) -> Result<(), Memory>
        requires { AreHeld symbols.now self.old.frames }
        ensures arrived { OnOk result
            (self.new ≡ steps.arrive (spelling symbols.now) self.old.frames self.old) }
        ensures held { AreHeld symbols.now self.new.frames }
    {
        while let Some(frame) = self.frames.pop() {
            if frame.left > 1 {
                self.text.put_byte(b',')?;
                self.frames.push(Frame {
                    symbol: frame.symbol,
                    left: frame.left - 1,
                })?;
                return Ok(());
            }
            put_opening(&mut self.text, symbols, frame.symbol)?;
        }
        Ok(())
    }

    fn arrive_with(&mut self, symbols: &Symbols, text: &[u8]) -> Result<(), Memory>
        requires { AreHeld symbols.now self.old.frames }
        ensures arrived { OnOk result
            (self.new ≡ steps.arrived (spelling symbols.now) text.now self.old) }
        ensures held { AreHeld symbols.now self.new.frames }
    {
        self.text.put(text)?;
        self.arrive(symbols)
    }

    fn close_group(&mut self, symbol: Option<Symbol>, left: usize, mark: u8) -> Result<(), Memory>
        ensures { OnOk result (self.new ≡ steps.close_group symbol left mark self.old) }
    {
        self.text.put_byte(mark)?;
        self.frames.push(Frame { symbol, left })?;
        self.cells = 0;
        Ok(())
    }
}

impl Writer {
    // Writes an item where a term stands.
    fn write_term(&mut self, symbols: &Symbols, item: Item) -> Result<(), Memory>
        requires held { AreHeld symbols.now self.old.frames }
        requires item { IsItemHeld symbols.now item }
        ensures written { OnOk result
            (self.new ≡ steps.term_written (spelling symbols.now) item self.old) }
        ensures held { OnOk result (AreHeld symbols.now self.new.frames) }
    {
        match item {
            Item::Var(_) => self.arrive_with(symbols, b""),
            Item::App(symbol, 0) => self.write_constant(symbols, symbol),
            Item::App(symbol, left) => self.close_group(Some(symbol), left as usize, b')'),
            Item::Int(value) => {
                let mut buffer = Buffer::new();
                self.arrive_with(symbols, buffer.format(value).as_bytes())
            }
            Item::Nil => self.arrive_with(symbols, b"[]"),
            Item::Cons => {
                self.cells = 1;
                Ok(())
            }
        }
    }

    fn write_constant(&mut self, symbols: &Symbols, symbol: Symbol) -> Result<(), Memory>
        requires held { AreHeld symbols.now self.old.frames }
        requires symbol { symbol.0 < length symbols.now }
        ensures written { OnOk result (self.new
            ≡ steps.arrived (spelling symbols.now) (spelling symbols.now symbol) self.old) }
        ensures held { OnOk result (AreHeld symbols.now self.new.frames) }
    {
        put_name(&mut self.text, symbols, symbol)?;
        self.arrive(symbols)
    }

    // Writes an item where the rest of a list stands.
    fn write_rest(&mut self, item: Item) -> Result<(), Memory>
        requires { self.old.cells < usize.MAX }
        ensures written { OnOk result (self.new ≡ steps.rest_written item self.old) }
    {
        match item {
            Item::Cons => {
                self.cells += 1;
                Ok(())
            }
            _ => self.close_group(None, self.cells, b']'),
        }
    }

    /// Writes an item, where the items after it were written.
    pub(crate) fn write(&mut self, symbols: &Symbols, item: Item) -> Result<(), Memory>
        requires held { AreHeld symbols.now self.old.frames }
        requires item { IsItemHeld symbols.now item }
        requires cells { self.old.cells < usize.MAX }
        ensures written { OnOk result
            (self.new ≡ steps.written (spelling symbols.now) item self.old) }
        ensures held { OnOk result (AreHeld symbols.now self.new.frames) }
    {
        if self.cells == 0 {
            self.write_term(symbols, item)
        } else {
            self.write_rest(item)
        }
    }

    /// Puts the text behind what `out` has. An `Err` changes nothing.
    pub(crate) fn append_to(self, out: &mut Vec<u8>) -> Result<(), AllocError>
        ensures ok { OnOk result (out.new.items ≡ out.old.items ++ self.text) }
        ensures err { OnErr result (out.new.items ≡ out.old.items) }
    {
        let Writer {
            text,
            frames: _,
            cells: _,
        } = self;
        text.append_to(out)
    }
}
