//! A store of terms that share what they have in common, as a pure machine that runs on plain data.
#![tactic(auto)]

mod machine;
mod state;

pub use state::{StoreState, replay};
pub use store_model::{
    Call, Content, KnownWord, Passed, Place, Refusal, Sizes, Stay, StoreStep, View,
};
