// What is true of the symbols of all evaluations.
ghost use Rattle.term_lines.specs.Laws.{ValuesHaveNames};

/// Where a pool holds the symbols of a term and of all right sides, it holds those of the term's
/// value.
pub fn name_laws()
    ensures { ValuesHaveNames }
{}
