//! Names that can be plain.
ghost use Rattle.std.specs.Prelude.{◌≡◌};
ghost use Rattle.std.specs.List.{list_all};
ghost use Rattle.tree_text.specs.NameBytes as name_bytes;
ghost use Rattle.tree_text.specs.Canonical as canonical;

use tree_text::{begins_name, continues_name};

/// Whether a plain name may go on with each of these bytes.
fn all_continue(bytes: &[u8]) -> bool
    ensures { result ≡ list_all name_bytes.continues_name bytes.now }
{
    bytes.iter().all(|byte| continues_name(*byte))
}

/// Whether a name can be plain.
pub(crate) fn is_plain(name: &[u8]) -> bool
    ensures { result ≡ canonical.is_plain name.now }
{
    match name.split_first() {
        None => false,
        Some((first, rest)) => begins_name(*first) && all_continue(rest),
    }
}
