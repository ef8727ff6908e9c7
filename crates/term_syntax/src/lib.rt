//! Reads term text, and knows that canonical text is read back.
#![tactic(auto)]

mod flats;
mod groups;
mod lately;
mod laws;
mod list;
mod machine;
mod name;
mod nodes;
mod parser;
mod scanner;
mod symbols;
mod terms;
mod token;

pub use lately::Lately;
pub use laws::canonical_laws;
pub use name::Name;
pub use read_faults::ReadFail;
pub use scanner::{Cut, integer_at, piece_at, quoted_name_at};
pub use symbols::take_symbol;
pub use terms::read_terms;
pub use token::{Mark, Shape, Token};
pub use tree_text::Flats;
