//! Tests of reading and checking specifications: `rec_reader`, `rec_includes`, `rec_offences` and
//! `rec_check`.
#![tactic(auto)]

#[cfg(test)]
mod checking;
#[cfg(test)]
mod grammar;
#[cfg(test)]
mod includes;
#[cfg(test)]
mod limits;
#[cfg(test)]
mod long_includes;
#[cfg(test)]
mod materials;
#[cfg(test)]
mod offences;
#[cfg(test)]
mod orders;
