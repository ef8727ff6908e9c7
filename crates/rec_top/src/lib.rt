//! The top call: from the words and the bytes that come in to the bytes and the status that go out.
#![tactic(auto)]

mod answering;
mod drilling;
mod rewriting;
mod top;

pub use node_rows::Chronicle;
pub use rec_answers::{Outcome, Workers, out_of_memory, trace_laws};
pub use top::run;
