//! The least of what was found.
ghost use Rattle.std.specs.Prelude.{◌≡◌, ◌∷◌, ℕ, [], true, if◌then◌else◌};
ghost use Rattle.std.specs.Option.{option_to_list};
ghost use Rattle.rec_offences.specs.Faults.{lesser, offence_at, goes_before, least_with, of_kind};

use faults::Refusal;
use rec_reader::Name;

/// Whether an offence goes before another: at a lesser place, or with a lesser kind at the same.
fn goes_before(a: Refusal, b: Refusal) -> bool
    ensures { result ≡ goes_before a b }
{
    a.place < b.place || (a.place == b.place && a.kind < b.kind)
}

/// Notes an offence at a name: what was found is then the lesser of both.
pub(crate) fn note(found: &mut Option<Refusal>, kind: u8, name: Name)
    ensures { found.new ≡ lesser found.old (offence_at kind name) }
{
    let offence = Refusal {
        kind,
        place: name.start as u64,
    };
    match found {
        Some(least) => {
            if goes_before(offence, *least) {
                *least = offence;
            }
        }
        None => *found = Some(offence),
    }
}

/// Whether a name stands behind what was found, so that no offence at it goes before that.
#[tactic(auto, using(crate::proofs::Leasts::behind))]
pub(crate) fn is_behind(found: Option<Refusal>, name: Name) -> bool
    ensures { (kind : ℕ) → result ≡ true → lesser found (offence_at kind name) ≡ found }
{
    match found {
        Some(least) => least.place < name.start as u64,
        None => false,
    }
}

/// Notes an offence at a name where it is so.
pub(crate) fn note_if(found: &mut Option<Refusal>, kind: u8, name: Name, is_so: bool)
    ensures { found.new ≡ least_with found.old (of_kind kind (if is_so then name ∷ [] else [])) }
{
    if is_so {
        note(found, kind, name);
    }
}

/// Notes an offence at a name, if there is one.
pub(crate) fn note_some(found: &mut Option<Refusal>, kind: u8, name: Option<Name>)
    ensures { found.new ≡ least_with found.old (of_kind kind (option_to_list name)) }
{
    if let Some(name) = name {
        note(found, kind, name);
    }
}
