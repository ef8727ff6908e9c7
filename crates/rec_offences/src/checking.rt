//! Checks an input, one specification after another.
ghost use Rattle.std.specs.Prelude.{◌≡◌, ◌<◌, ◌+◌, ◌++◌, ◌∷◌, All, IfOk, OnOk, length, map};
ghost use Rattle.std.specs.List.{flat_map};
ghost use Rattle.rec_includes.specs.Material.{symbols_by};
ghost use Rattle.rec_includes.specs.Listing.{listing};
ghost use Rattle.rec_includes.specs.Numbered.{headers_in};
ghost use Rattle.rec_offences.specs.Scope.{symbol_entry, own_entries};
ghost use Rattle.rec_offences.specs.Known.{entries_of, with_entries};
ghost use Rattle.rec_offences.specs.Grouped.{declared_at, used_at};
ghost use Rattle.rec_offences.specs.Faults.{least_with, fault_of};

use crate::inclusion::Inclusion;
use crate::offences::heads::note_heads;
use crate::offences::limits::{note_long_declared, note_past_limits};
use crate::offences::repeated::note_repeated_names;
use crate::offences::unknown::{note_unknown_includes, note_unknown_sorts};
use crate::offences::variables::note_misplaced_variables;
use crate::scope::Scope;
use crate::signatures::{Signature, own_symbols};
use crate::turn::Turn;
use faults::{Memory, Refusal};
use rec_includes::{Directory, headers_in, order};
use rec_reader::{Specification, Syntax};
use std::alloc::Global;

/// Notes what else is wrong with a specification, where names are declared so; `symbols` are its
/// own, and so many symbols and rules are included. The limits come before the heads: a variable's
/// sort that is too long is found then, and isn't read at each use.
fn note_used(
    alloc: Global,
    found: &mut Option<Refusal>,
    turn: &Turn,
    included: (usize, usize),
    symbols: &[Signature],
    scope: &Scope,
) -> Result<(), Memory>
    requires { scope.now.bytes ≡ turn.now.headers.now.bytes }
    ensures { OnOk result (found.new ≡ least_with found.old
        (used_at turn.now included.0 included.1 (entries_of symbols.now) scope.now.entries)) }
{
    note_misplaced_variables(alloc, found, scope, turn.specification)?;
    note_unknown_includes(found, turn);
    note_past_limits(found, turn, included, symbols);
    note_heads(alloc, found, scope, turn.specification)
}

/// Notes the offences of a specification, where what it includes is at hand, and gives how many
/// symbols there are with its own.
#[tactic(auto, using(crate::proofs::Leasts::noting), unfolding(crate::specs::Grouped::declared_group))]
fn note_included<'a>(
    alloc: Global,
    found: &mut Option<Refusal>,
    turn: &Turn<'_, 'a>,
    included: &mut Inclusion<'a>,
) -> Result<usize, Memory>
    requires sorts { included.old.sorts.bytes ≡ turn.now.headers.now.bytes }
    requires scope { included.old.scope.bytes ≡ turn.now.headers.now.bytes }
    ensures material { OnOk result (included.new.material ≡ included.old.material) }
    ensures levels { OnOk result (included.new.levels ≡ included.old.levels) }
    ensures rules { OnOk result (included.new.rules ≡ included.old.rules) }
    ensures declared { OnOk result (included.new.scope
        ≡ with_entries included.old.scope (own_entries turn.now.specification.now)) }
    ensures listed { OnOk result (included.new.sorts ≡ listing included.old.sorts.bytes
        (included.old.sorts.names ++ turn.now.specification.now.sorts)) }
    ensures symbols { IfOk result (λ n. n ≡ length included.old.scope.entries
        + length (symbols_by turn.now.specification.now)) }
    ensures noted { OnOk result (found.new ≡ least_with found.old
        (declared_at turn.now included.old.sorts.names included.old.scope.entries
        (own_entries turn.now.specification.now)
        ++ used_at turn.now (length included.old.scope.entries) included.old.rules
        (map symbol_entry (symbols_by turn.now.specification.now))
        (included.old.scope.entries ++ own_entries turn.now.specification.now))) }
{
    let before = (included.scope.len(), included.rules);
    included.sorts.add_all(turn.specification.sorts.as_slice())?;
    note_unknown_sorts(found, &included.sorts, turn.specification);
    note_repeated_names(alloc, found, turn, &mut included.scope)?;
    let symbols = own_symbols(alloc, turn.specification)?;
    note_used(alloc, found, turn, before, &symbols, &included.scope)?;
    Ok(before.0 + symbols.len())
}

/// Specifications that are checked: the names of their headers, the material that is at hand, and
/// the least offence that was found.
#[derive(Drop)]
pub(crate) struct Checking<'h, 'a> {
    pub specifications: &'a [Specification],
    pub headers: &'h Directory<'a>,
    pub included: Inclusion<'a>,
    pub found: Option<Refusal>,
}

impl<'a> Checking<'_, 'a> {
    ghost use Rattle.rec_includes.specs.Forest.{cut, parent_of};
    ghost use Rattle.rec_offences.specs.Grouped.{offences_at};
    ghost use Rattle.rec_offences.specs.Inclusion.{path_of};
    ghost use Rattle.rec_offences.specs.Checking.{HasSameInput, IsChecking};

    /// Notes the offences of the specification with this number, and leaves its material at hand.
    fn note_offences(&mut self, alloc: Global, number: usize) -> Result<(), Memory>
        requires there { number < length self.old.specifications.now }
        requires checking { IsChecking self.old }
        ensures checking { OnOk result (IsChecking self.new) }
        ensures same { HasSameInput self.old self.new }
        ensures path { OnOk result (path_of self.new.included.levels.items ≡ number
            ∷ cut (parent_of self.old.headers.now.bytes self.old.headers.now.names
            self.old.specifications.now number) (path_of self.old.included.levels.items)) }
        ensures noted { OnOk result (self.new.found ≡ least_with self.old.found
            (offences_at self.old.headers.now.bytes self.old.specifications.now number)) }
    {
        let specifications = self.specifications;
        let verdicts = self
            .included
            .include_all(alloc, self.headers, specifications, number)?;
        let turn = Turn {
            headers: self.headers,
            number,
            specification: &specifications[number],
            verdicts: &verdicts,
        };
        let symbols = note_included(alloc, &mut self.found, &turn, &mut self.included)?;
        self.included.enter(turn.specification, number, symbols)
    }

    /// Notes the offences of the specifications with these numbers, and gives the least.
    #[tactic(auto, using(crate::proofs::Leasts::noting_parts))]
    fn note_all(&mut self, alloc: Global, numbers: &[usize]) -> Result<Option<Refusal>, Memory>
        requires there { All (λ n. n < length self.old.specifications.now) numbers.now }
        requires checking { IsChecking self.old }
        ensures { IfOk result (λ f. f ≡ least_with self.old.found (flat_map
            (offences_at self.old.headers.now.bytes self.old.specifications.now) numbers.now)) }
    {
        for number in numbers {
            self.note_offences(alloc, *number)?;
        }
        Ok(self.found)
    }
}

/// The fault of specifications: of all their offences the one with the least place, and of those
/// the one of the least kind. None exactly where there is no offence. The names of their headers
/// are at hand.
///
/// The kinds: 4 an unknown sort, 5 an unknown name, 6 a repeated name, 7 another number of
/// arguments than declared, 8 another sort than declared, 9 a variable as a left side, 10 a
/// variable that doesn't occur on the left, 11 a variable in a term to be rewritten, 12 an include
/// that no earlier header has, 13 more than the limits allow.
pub fn fault_with<'a>(
    alloc: Global,
    headers: &Directory<'a>,
    syntax: &'a Syntax,
) -> Result<Option<Refusal>, Memory>
    requires { headers.now ≡ headers_in syntax.now }
    ensures { IfOk result (λ f. f ≡ fault_of syntax.now) }
{
    let specifications = syntax.as_slice();
    let numbers = order(alloc, headers, specifications)?;
    let mut found = None;
    note_long_declared(&mut found, syntax.text(), specifications);
    let mut checking = Checking {
        specifications,
        headers,
        included: Inclusion::new(alloc, syntax.text()),
        found,
    };
    checking.note_all(alloc, &numbers)
}

/// The fault of specifications, as `fault_with` gives it.
pub fn fault(alloc: Global, syntax: &Syntax) -> Result<Option<Refusal>, Memory>
    ensures { IfOk result (λ f. f ≡ fault_of syntax.now) }
{
    let headers = headers_in(alloc, syntax)?;
    fault_with(alloc, &headers, syntax)
}
