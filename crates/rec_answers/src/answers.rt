// What a command answers before anything is written.
ghost use Rattle.std.specs.Prelude.{◌≡◌, [], None};

use crate::results::Workers;
use crate::stops::Stop;
use log_text::LogText;
use node_rows::Chronicle;

/// The output of a command, before it is written.
#[derive(Drop)]
pub struct Answer {
    pub output: Vec<u8>,
    /// Whether each term's line is its value.
    pub values: bool,
    /// Whether the input was checked, and isn't right.
    pub refuted: bool,
    pub workers: Workers,
}

/// How a command ends before anything is written.
#[derive(Drop)]
pub struct Finished {
    /// The output, or why there is none.
    pub answer: Result<Answer, Stop>,
    /// The history of its workers.
    pub chronicle: Chronicle,
    /// The log of that history, where one is asked, to be written behind the output.
    pub log: Option<LogText>,
}

impl Finished {
    /// A command that rewrote no terms.
    pub fn alone(answer: Result<Answer, Stop>) -> Self
        ensures answer { result.answer ≡ answer }
        ensures chronicle { result.chronicle ≡ [] }
        ensures log { result.log ≡ None }
    {
        Finished {
            answer,
            chronicle: Chronicle::empty(),
            log: None,
        }
    }
}
