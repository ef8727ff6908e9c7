//! Names that an earlier one has.
ghost use Rattle.std.specs.Prelude.{◌≡◌, ◌∷◌, [], OnOk};
ghost use Rattle.std.specs.List.{filter};
ghost use Rattle.rec_includes.specs.Names.{is_among};
ghost use Rattle.rec_offences.specs.Scope.{names_of, own_entries};
ghost use Rattle.rec_offences.specs.Offences.{repeated};
ghost use Rattle.rec_offences.specs.Faults.{of_kind, least_with};
ghost use Rattle.rec_offences.specs.Known.{entries_of, with_entries};
ghost use Rattle.rec_offences.specs.Grouped.{clashing_entries, earlier_headers, repeated_at};

use crate::entries::Verdict;
use crate::least::note_if;
use crate::scope::Scope;
use crate::signatures::{Signature, own_signatures};
use crate::turn::Turn;
use faults::{Memory, Refusal, kinds};
use rec_includes::Directory;
use rec_reader::Name;
use std::alloc::Global;

/// Notes the names whose text an earlier one has.
fn note_repeated(
    found: &mut Option<Refusal>,
    earlier: &mut Directory,
    names: &[Name],
) -> Result<(), Memory>
    ensures noted { OnOk result (found.new ≡ least_with found.old
        (of_kind 6 (repeated earlier.old.bytes earlier.old.names names.now))) }
{
    for name in names {
        note_if(found, kinds::REPEATED, *name, earlier.has(*name));
        earlier.add(*name)?;
    }
    Ok(())
}

/// Declares names, and notes those that are declared already.
fn declare<'a>(
    found: &mut Option<Refusal>,
    scope: &mut Scope<'a>,
    own: &[Signature<'a>],
) -> Result<(), Memory>
    ensures declared { OnOk result (scope.new ≡ with_entries scope.old (entries_of own.now)) }
    ensures noted { OnOk result (found.new ≡ least_with found.old (of_kind 6
        (repeated scope.old.bytes (names_of scope.old.entries) (names_of (entries_of own.now))))) }
{
    for signature in own {
        note_if(
            found,
            kinds::REPEATED,
            signature.name,
            scope.has(signature.name),
        );
        scope.add(*signature)?;
    }
    Ok(())
}

/// Notes the sorts of a specification whose text an earlier one of them has.
fn note_equal_sorts(alloc: Global, found: &mut Option<Refusal>, turn: &Turn) -> Result<(), Memory>
    ensures { OnOk result (found.new ≡ least_with found.old (of_kind 6
        (repeated turn.now.headers.now.bytes [] turn.now.specification.now.sorts))) }
{
    let mut sorts = Directory::new(alloc, turn.headers.text());
    note_repeated(found, &mut sorts, turn.specification.sorts.as_slice())
}

/// Notes a header's name that an earlier header has.
fn note_repeated_header(found: &mut Option<Refusal>, turn: &Turn)
    ensures { found.new ≡ least_with found.old (of_kind 6
        (filter (is_among turn.now.headers.now.bytes (earlier_headers turn.now))
        (turn.now.specification.now.name ∷ []))) }
{
    let name = turn.specification.name;
    note_if(
        found,
        kinds::REPEATED,
        name,
        turn.headers.has_before(turn.number, name),
    );
}

fn note_clashing_entries(found: &mut Option<Refusal>, verdicts: &[Verdict])
    ensures { found.new ≡ least_with found.old (of_kind 6 (clashing_entries verdicts.now)) }
{
    for verdict in verdicts {
        note_if(found, kinds::REPEATED, verdict.entry, verdict.is_clashing);
    }
}

/// Declares a specification's own names, and notes what is repeated.
pub(crate) fn note_repeated_names<'a>(
    alloc: Global,
    found: &mut Option<Refusal>,
    turn: &Turn<'_, 'a>,
    scope: &mut Scope<'a>,
) -> Result<(), Memory>
    requires { scope.old.bytes ≡ turn.now.headers.now.bytes }
    ensures declared { OnOk result (scope.new
        ≡ with_entries scope.old (own_entries turn.now.specification.now)) }
    ensures noted { OnOk result (found.new ≡ least_with found.old (of_kind 6
        (repeated_at turn.now scope.old.entries (own_entries turn.now.specification.now)))) }
{
    note_repeated_header(found, turn);
    note_equal_sorts(alloc, found, turn)?;
    let own = own_signatures(alloc, turn.specification)?;
    declare(found, scope, &own)?;
    note_clashing_entries(found, turn.verdicts);
    Ok(())
}
