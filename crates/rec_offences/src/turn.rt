//! A specification whose turn it is to be checked.
use crate::entries::Verdict;
use rec_includes::Directory;
use rec_reader::Specification;

/// The names of all headers, the specification whose turn it is, by its number, and what is wrong
/// at the entries of its list of includes.
#[derive(Clone, Copy)]
pub(crate) struct Turn<'t, 'a> {
    pub headers: &'t Directory<'a>,
    pub number: usize,
    pub specification: &'a Specification,
    pub verdicts: &'t [Verdict],
}
