//! A store of terms that share what they have in common, as a machine of atomic steps: its
//! definitions, what every step keeps, and what a seat knows of it.
#![tactic(auto)]

mod law;
mod step;
mod view;

pub use law::{
    collections_end, creations_end, entries_are_recalled, own_view_permits, steps_keep,
    what_is_led_to_stays, words_are_shown, worked_runs,
};
pub use step::StoreStep;
pub use view::{Call, Content, KnownWord, Passed, Place, Refusal, Sizes, Stay, View};
