//! The command line: the words that the program is started with, as settings.
#![tactic(auto)]

mod line;
mod options;
mod parts;
mod reading;

pub use parts::{Command, Settings, WordsFault};
pub use reading::settings;
