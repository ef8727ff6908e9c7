//! The crew that makes the lines of some terms: numbers that workers draw from one word, a share
//! for each worker, and what all leave, put together.
#![tactic(auto)]

mod crew;
mod draws;
mod fault;
mod gather;
mod law;
mod lines;
mod share;

pub use crew::{Crew, crew_of};
pub use draws::{Drawing, Drawn, Draws, Extent, Seat, draw};
pub use fault::AllFault;
pub use gather::{beside, collect};
pub use law::{each_number_is_drawn_once, hands_are_joined};
pub use lines::{Line, Lines, Traced};
pub use share::{Numbered, Share};
