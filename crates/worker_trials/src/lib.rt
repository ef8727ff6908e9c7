//! Tests of workers: on stores of their own, and on one store that they share.
#![tactic(auto)]

#[cfg(test)]
mod drawing;
#[cfg(test)]
mod sharing;
#[cfg(test)]
mod told;
