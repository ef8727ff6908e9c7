//! Tests of the program's call `run`: words and bytes in, bytes, a line and a status out.
#![tactic(auto)]

#[cfg(test)]
mod caches;
#[cfg(test)]
mod checks;
#[cfg(test)]
mod files;
#[cfg(test)]
mod gates;
#[cfg(test)]
mod large;
#[cfg(test)]
mod large_terms;
#[cfg(test)]
mod logs;
#[cfg(test)]
mod rows;
#[cfg(test)]
mod terms;
#[cfg(test)]
mod traces;
#[cfg(test)]
mod trial;
#[cfg(test)]
mod words;
#[cfg(test)]
mod workers;
