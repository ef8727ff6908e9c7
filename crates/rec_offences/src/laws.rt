//! What is true of the fault and of the visits that find it, each law the contract of a function
//! that does nothing.
ghost use Rattle.rec_offences.specs.Laws.{FaultIsLeast, FaultlessHasNoOffence, VisitsAreOfArguments};

/// The fault of an input is the least of its offences, and an input without one has none.
#[tactic(auto, using(crate::proofs::Leasts::fault_of_all))]
pub fn fault_laws()
    ensures least { FaultIsLeast }
    ensures none { FaultlessHasNoOffence }
{}

/// A head is visited with the heads of its arguments, after the visits of the arguments.
#[tactic(auto, using(crate::proofs::Visits::visits_are_of_arguments))]
pub fn visit_laws()
    ensures { VisitsAreOfArguments }
{}
