//! What readers answer: why an input isn't read, and, of text, why a token isn't taken.
#![tactic(auto)]

mod fail;
mod not_taken;
mod refusing;

pub use fail::ReadFail;
pub use not_taken::NotTaken;
pub use refusing::refused;
