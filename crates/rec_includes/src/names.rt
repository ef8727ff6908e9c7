//! The texts of names.
ghost use Rattle.std.specs.Prelude.{◌≡◌};
ghost use Rattle.rec_includes.specs.Names.{text_of};

use rec_reader::Name;

/// The bytes of a name.
#[inline(always)]
pub fn text_of<'a>(text: &'a [u8], name: Name) -> &'a [u8]
    ensures { result.now ≡ text_of text.now name }
{
    let end = name.end.min(text.len());
    let start = name.start.min(end);
    &text[start..end]
}
