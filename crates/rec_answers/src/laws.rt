//! What is true of all outputs with traces, as the contract of a function that does nothing.

ghost use Rattle.rec_answers.specs.Laws.{TracesAreDerived, TracesAreAccepted};

/// What `rewrite --trace` writes is found derived by `check trace`.
pub fn trace_laws()
    ensures derived { TracesAreDerived }
    ensures accepted { TracesAreAccepted }
{}
