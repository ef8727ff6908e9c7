//! Reads rewrite specifications: the tokens of bytes, and the syntax that tokens spell.
#![tactic(auto)]

mod laws;
mod machine;
mod parser;
mod scanner;
mod syntax_tree;
mod token;

pub use faults::Memory;
pub use laws::token_laws;
pub use parser::{read, syntax};
pub use read_faults::ReadFail;
pub use scanner::tokens;
pub use sequences::Sequence;
pub use syntax_tree::{Condition, Declaration, Node, Rule, Specification, Syntax, Variables};
pub use token::{Name, Sign, Token, Tokens};
