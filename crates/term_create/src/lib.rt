//! Creations on a running store: a head over rows, shared with all other passes; and reads of the
//! rows.
#![tactic(auto)]

mod asked;
mod counting;
mod creating;
mod making;
mod places;
mod reads;
mod stages;
mod telling;
mod walking;
mod words;

pub use asked::Full;
pub use counting::Steps;
pub use creating::{create, create_counted, create_inside};
pub use reads::{child_at, child_of, count_at, count_of, head_at, head_of, start_of};
