//! Terms in a file, each different subterm once.
#![tactic(auto)]

mod decoding;
mod encoding;
mod expanding;
mod fault;
mod fields;
mod found;
mod frame;
mod growing;
mod laws;
mod numbering;
mod printing;
mod record;
mod records;
mod roots;
mod shared;
mod sharing;
mod symbols;
mod table;
mod walk;

pub use decoding::decode;
pub use encoding::encode;
pub use fault::ShareFault;
pub use faults::Memory;
pub use growing::number_of;
pub use laws::file_laws;
pub use printing::write_shared;
pub use read_faults::ReadFail;
pub use record::{Kind, Record};
pub use shared::Shared;
pub use sharing::share;
pub use table::Table;
pub use term_text::Printed;
pub use tree_text::Flats;
