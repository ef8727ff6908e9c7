//! The material of a specification, gathered by a walk over what it includes.
ghost use Rattle.std.specs.Prelude.{◌≡◌, ◌<◌, ◌++◌, ◌∷◌, [], false, nat_eq, IfOk, OnOk, length};
ghost use Rattle.std.specs.List.{list_any};
ghost use Rattle.rec_includes.specs.Material.{fresh, with_numbers, material_of};
ghost use Rattle.rec_includes.specs.Listing.{listing};
ghost use Rattle.rec_includes.specs.Numbered.{header_names, headers_in, includes_at, IsClosed};
ghost use Rattle.rec_includes.specs.Walk.{next_in, missing};

use crate::directory::Directory;
use faults::Memory;
use indexmap::IndexSet;
use rec_reader::{Name, Specification, Syntax};
use std::alloc::Global;

/// A frame of the walk's stack: a specification that is being gathered, and which of its entries
/// comes next.
#[derive(Clone, Copy)]
struct Frame {
    number: usize,
    next: usize,
}

/// The names of headers in order.
pub fn header_names<'a>(
    alloc: Global,
    text: &'a [u8],
    specifications: &[Specification],
) -> Result<Directory<'a>, Memory>
    ensures { IfOk result (λ d. d ≡ listing text.now (header_names specifications.now)) }
{
    let mut names = Directory::new(alloc, text);
    for specification in specifications {
        names.add(specification.name)?;
    }
    Ok(names)
}

/// The names of the headers of a syntax in order.
pub fn headers_in<'a>(alloc: Global, syntax: &'a Syntax) -> Result<Directory<'a>, Memory>
    ensures { IfOk result (λ d. d ≡ headers_in syntax.now) }
{
    header_names(alloc, syntax.text(), syntax.as_slice())
}

/// The entries of the specification with this number.
pub fn includes_at(specifications: &[Specification], number: usize) -> &[Name]
    ensures { result.now ≡ includes_at specifications.now number }
{
    match specifications.get(number) {
        Some(specification) => specification.includes.as_slice(),
        None => &[],
    }
}

/// The entry that comes next in a frame, and the frame after it.
fn next_entry(specifications: &[Specification], frame: Frame) -> Option<(Name, Frame)>
    ensures { result ≡ next_in specifications.now frame }
{
    let entry = *includes_at(specifications, frame.number).get(frame.next)?;
    let next = frame.next + 1;
    Some((
        entry,
        Frame {
            number: frame.number,
            next,
        },
    ))
}

/// The specification that an entry of the one with this number includes, unless it is there.
fn missing(
    headers: &Directory,
    material: &IndexSet<usize>,
    number: usize,
    entry: Name,
) -> Option<usize>
    ensures { result
        ≡ missing headers.now.bytes headers.now.names material.now.keys number entry }
{
    let place = headers.place_before(number, entry)?;
    if material.contains(&place) {
        None
    } else {
        Some(place)
    }
}

/// Adds a number to a material, and where it is new to what was added.
fn add(material: &mut IndexSet<usize>, added: &mut Vec<usize>, number: usize) -> Result<(), Memory>
    ensures material { OnOk result (material.new.keys
        ≡ with_numbers material.old.keys (number ∷ [])) }
    ensures added { OnOk result (added.new.items
        ≡ added.old.items ++ fresh material.old.keys (number ∷ [])) }
{
    if material.insert(number)? {
        added.push(number)?;
    }
    Ok(())
}

/// Adds the material of the specification with this number by a walk over what it includes, and
/// gives what wasn't there. What is there is passed over: all of its own material is there too.
fn gather_absent(
    alloc: Global,
    headers: &Directory,
    specifications: &[Specification],
    material: &mut IndexSet<usize>,
    number: usize,
) -> Result<Vec<usize>, Memory>
    requires names { headers.now.names ≡ header_names specifications.now }
    requires there { number < length specifications.now }
    requires absent { list_any (nat_eq number) material.old.keys ≡ false }
    requires closed { IsClosed headers.now.bytes specifications.now material.old.keys }
    ensures closed { OnOk result
        (IsClosed headers.now.bytes specifications.now material.new.keys) }
    ensures material { OnOk result (material.new.keys ≡ with_numbers material.old.keys
        (material_of headers.now.bytes specifications.now number)) }
    ensures added { IfOk result (λ v. v.items
        ≡ fresh material.old.keys (material_of headers.now.bytes specifications.now number)) }
{
    let mut added = Vec::new(alloc);
    let mut frames = Vec::new(alloc);
    frames.push(Frame { number, next: 0 })?;
    while let Some(frame) = frames.pop() {
        match next_entry(specifications, frame) {
            Some((entry, rest)) => {
                frames.push(rest)?;
                if let Some(place) = missing(headers, material, frame.number, entry) {
                    frames.push(Frame {
                        number: place,
                        next: 0,
                    })?;
                }
            }
            None => add(material, &mut added, frame.number)?,
        }
    }
    Ok(added)
}

/// Adds the material of the specification with this number, and gives what wasn't there.
#[tactic(auto, using(crate::proofs::Fresh::nothing_new))]
pub fn gather(
    alloc: Global,
    headers: &Directory,
    specifications: &[Specification],
    material: &mut IndexSet<usize>,
    number: usize,
) -> Result<Vec<usize>, Memory>
    requires names { headers.now.names ≡ header_names specifications.now }
    requires there { number < length specifications.now }
    requires closed { IsClosed headers.now.bytes specifications.now material.old.keys }
    ensures closed { OnOk result
        (IsClosed headers.now.bytes specifications.now material.new.keys) }
    ensures material { OnOk result (material.new.keys ≡ with_numbers material.old.keys
        (material_of headers.now.bytes specifications.now number)) }
    ensures added { IfOk result (λ v. v.items
        ≡ fresh material.old.keys (material_of headers.now.bytes specifications.now number)) }
{
    if material.contains(&number) {
        return Ok(Vec::new(alloc));
    }
    gather_absent(alloc, headers, specifications, material, number)
}

/// The material of the specification with this number, counted from 0, where the names of headers
/// are at hand: the numbers of those that it includes, each once and after what it includes itself,
/// and then its own. Nothing where there is no such specification.
#[tactic(auto, using(crate::proofs::Materials::materials))]
pub fn material_with(
    alloc: Global,
    headers: &Directory,
    syntax: &Syntax,
    number: usize,
) -> Result<Vec<usize>, Memory>
    requires { headers.now ≡ headers_in syntax.now }
    ensures { IfOk result (λ v. v.items
        ≡ material_of syntax.now.bytes syntax.now.specifications number) }
{
    let specifications = syntax.as_slice();
    if number >= specifications.len() {
        return Ok(Vec::new(alloc));
    }
    let mut material = IndexSet::new(alloc);
    gather(alloc, headers, specifications, &mut material, number)
}

/// The material of the specification with this number, counted from 0, as `material_with` gives it.
pub fn material_of(alloc: Global, syntax: &Syntax, number: usize) -> Result<Vec<usize>, Memory>
    ensures { IfOk result (λ v. v.items
        ≡ material_of syntax.now.bytes syntax.now.specifications number) }
{
    let headers = headers_in(alloc, syntax)?;
    material_with(alloc, &headers, syntax, number)
}
