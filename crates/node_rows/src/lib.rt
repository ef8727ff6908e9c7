//! The running store: the words of a table and the views of its seats show a store.
#![tactic(auto)]

mod arriving;
mod closing;
mod collecting;
mod law;
mod make;
mod places;
mod reading;
mod root_words;
mod rows;
mod rule;
mod steps;
mod store;
mod told;
mod view;

pub use closing::Chronicle;
pub use collecting::{load_any, store_any, store_claim};
pub use law::{
    collection_steps_are_the_stores, crowds_are_at_their_place, crowds_are_held,
    entries_name_trees, history_is_legal, known_trees_are_held, led_rows_are_kept,
    lock_steps_are_the_stores, own_steps_are_in_place, own_steps_are_the_stores,
};
pub use places::{
    base_word, birth_word, bucket_word, claim_word, free_count_word, free_place_word, in_use_word,
    next_word, row_word, word_in,
};
pub use reading::{load_root, read_argument, read_word, store_root, store_root_count};
pub use root_words::{root_count_word, root_word};
pub use rows::row_of;
pub use rule::NodeRows;
pub use steps::{begin, go_draw, go_load, go_publish, go_store, load_base, load_in_use};
pub use store::{Last, Pass, Store};
pub use told::{kept, last, tell_collect};
pub use view::{JoinedSeat, NodeView};
