// What the drill's text is, by laws, and texts worked by hand.
ghost use Rattle.std.specs.Prelude.{◌≡◌, ◌==◌, ℕ, ◌+◌, ◌*◌, ◌<◌, ◌≤◌, [], ◌∷◌, ◌++◌, length, Some, slice_get};
ghost use Rattle.std.specs.List.{slice_split};
ghost use Rattle.rec_drill.specs.Drill.{first_count, second_count, numeral, term_line, term_lines, drill_lines, drill_bytes};
ghost use Rattle.rec_drill.specs.Worked.{counts, first_turn, second_turn, text_of_one, three_terms};

/// Cut at its line feeds, the text is its lines, and nothing after the last: 12 lines, a line for
/// each term in order, and a last line. A number of k has 3 * k + 1 bytes. The terms' numbers
/// repeat after 11 and after 13 terms. A text of n terms has at most 216 + 76 * n bytes.
pub fn drill_laws()
    ensures cut { (n : ℕ) → slice_split (λ b. b == 10) (drill_bytes n) ≡ drill_lines n ++ [] ∷ [] }
    ensures lines { (n : ℕ) → length (drill_lines n) ≡ 12 + n + 1 }
    ensures terms { (n i : ℕ) → i < n → slice_get (drill_lines n) (12 + i) ≡ Some (term_line i) }
    ensures numbers { (k : ℕ) → length (numeral k) ≡ 3 * k + 1 }
    ensures first_repeats { (i : ℕ) → first_count (i + 11) ≡ first_count i }
    ensures second_repeats { (i : ℕ) → second_count (i + 13) ≡ second_count i }
    ensures short { (n : ℕ) → length (drill_bytes n) ≤ 216 + 76 * n }
{}

/// The text of one term, the lines of three, and the numbers of the terms until they repeat.
pub fn worked_drills()
    ensures one { drill_bytes 1 ≡ text_of_one }
    ensures three { term_lines 3 ≡ three_terms }
    ensures first { counts first_count 11 ≡ first_turn }
    ensures second { counts second_count 13 ≡ second_turn }
{}
