//! What each command answers that rewrites nothing on the shared store, and how any run ends: from
//! the bytes of an input to what is written, and the words of the top call's contract.
#![tactic(auto)]

mod alone;
mod answers;
mod checking;
mod counting;
mod events;
mod finishing;
mod joining;
mod laws;
mod listing;
mod outputs;
mod packing;
mod reading;
mod results;
mod scheduling;
mod specification;
mod stops;
mod unpacking;
mod writing;

pub use alone::answer_alone;
pub use answers::{Answer, Finished};
pub use counting::told_counts;
pub use finishing::finish;
pub use laws::trace_laws;
pub use outputs::told_lines;
pub use reading::{input_of, limit_of};
pub use results::{Outcome, Workers};
pub use specification::{Conditions, conditions_of, specification_of};
pub use stops::{Stop, lines_or_stop, out_of_memory, stop_of_drill, stopped_before};
