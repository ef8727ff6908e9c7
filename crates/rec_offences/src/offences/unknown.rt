//! Sorts and entries of lists of includes that aren't known.
ghost use Rattle.std.specs.Prelude.{◌≡◌, ◌++◌, ◌∷◌, [], not};
ghost use Rattle.std.specs.List.{filter};
ghost use Rattle.rec_includes.specs.Names.{is_among};
ghost use Rattle.rec_offences.specs.Offences.{is_unknown, unknown_sorts};
ghost use Rattle.rec_offences.specs.Faults.{of_kind, least_with};
ghost use Rattle.rec_offences.specs.Grouped.{earlier_headers};

use crate::least::note_if;
use crate::turn::Turn;
use faults::{Refusal, kinds};
use rec_includes::Directory;
use rec_reader::{Declaration, Name, Specification};

/// Notes a sort that isn't known; and below, those of a declaration.
fn note_unknown_sort(found: &mut Option<Refusal>, sorts: &Directory, sort: Name)
    ensures { found.new ≡ least_with found.old (of_kind 4
        (filter (is_unknown sorts.now.bytes sorts.now.names) (sort ∷ []))) }
{
    note_if(found, kinds::UNKNOWN_SORT, sort, !sorts.has(sort));
}

fn note_unknown_in(found: &mut Option<Refusal>, sorts: &Directory, declaration: &Declaration)
    ensures { found.new ≡ least_with found.old (of_kind 4
        (filter (is_unknown sorts.now.bytes sorts.now.names)
        (declaration.now.arguments ++ declaration.now.sort ∷ []))) }
{
    for sort in declaration.arguments.as_slice() {
        note_unknown_sort(found, sorts, *sort);
    }
    note_unknown_sort(found, sorts, declaration.sort);
}

/// Notes the sorts of arguments, symbols and variables that aren't known.
pub(crate) fn note_unknown_sorts(
    found: &mut Option<Refusal>,
    sorts: &Directory,
    specification: &Specification,
)
    ensures { found.new ≡ least_with found.old
        (of_kind 4 (unknown_sorts sorts.now.bytes sorts.now.names specification.now)) }
{
    for declaration in specification.declarations.as_slice() {
        note_unknown_in(found, sorts, declaration);
    }
    for variables in specification.variables.as_slice() {
        note_unknown_sort(found, sorts, variables.sort);
    }
}

/// Notes the entries that no header before this one has.
pub(crate) fn note_unknown_includes(found: &mut Option<Refusal>, turn: &Turn)
    ensures { found.new ≡ least_with found.old (of_kind 12
        (filter (λ n. not (is_among turn.now.headers.now.bytes (earlier_headers turn.now) n))
        turn.now.specification.now.includes)) }
{
    for entry in turn.specification.includes.as_slice() {
        note_if(
            found,
            kinds::INCLUDE,
            *entry,
            !turn.headers.has_before(turn.number, *entry),
        );
    }
}
