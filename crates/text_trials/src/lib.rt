//! Tests of term text, its symbols and stores, and the shared file.
#![tactic(auto)]

#[cfg(test)]
mod building;
#[cfg(test)]
mod commands;
#[cfg(test)]
mod files;
#[cfg(test)]
mod inputs;
#[cfg(test)]
mod pools;
#[cfg(test)]
mod sharing;
#[cfg(test)]
mod sizes;
#[cfg(test)]
mod stores;
#[cfg(test)]
mod syntax;
