//! Terms that are read or written together.

use sequences::Sequence;
use term_model::Flat;

/// Terms in order.
pub type Flats = Sequence<Flat>;
