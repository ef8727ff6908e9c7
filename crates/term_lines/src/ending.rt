// What the line of a term is.
ghost use Rattle.std.specs.Prelude.{◌≡◌, if◌then◌else◌};
ghost use Rattle.line_ends.specs.declared.kind.LineKind.TheVariants as kind;
ghost use Rattle.term_lines.specs.Line.{is_value_kind};

use line_ends::LineKind;

/// What rewriting a term came to.
#[derive(Clone, Copy, Debug, PartialEq, Eq)]
pub struct Ending {
    /// What its line has.
    pub kind: LineKind,
    /// The fuel that a value took, and 0 at any other kind of line.
    pub spent: u64,
}

impl Ending {
    /// The end of a term whose line is no value.
    pub(crate) fn without_value(kind: LineKind) -> Self
        ensures { result ≡ record { kind = kind; spent = 0 } }
    {
        Ending { kind, spent: 0 }
    }

    /// Whether the line is a value.
    pub fn is_value(&self) -> bool
        ensures { result ≡ is_value_kind self.now.kind }
    {
        match self.kind {
            LineKind::Value => true,
            LineKind::OutOfFuel | LineKind::TooDeep | LineKind::TooLarge => false,
        }
    }
}

/// The end of a term that has a value, by whether the value was written, and the fuel that it took.
pub(crate) fn value_ending(written: bool, spent: u64) -> Ending
    ensures kind { result.kind ≡ (if written then kind.Value else kind.TooLarge) }
    ensures spent { result.spent ≡ (if written then spent else 0) }
{
    if written {
        Ending {
            kind: LineKind::Value,
            spent,
        }
    } else {
        Ending::without_value(LineKind::TooLarge)
    }
}
