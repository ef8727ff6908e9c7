//! What is true of all outputs with traces, as the contract of a function that does nothing.

ghost use Rattle.run_checks.specs.Laws.{OutputsAreDerived};

/// An output whose traces lead to its values is found derived.
pub fn acceptance_laws()
    ensures derived { OutputsAreDerived }
{}
