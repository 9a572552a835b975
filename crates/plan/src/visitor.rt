//! What is done at the passages of a table.
ghost use Rattle.std.specs.Prelude.{◌≡◌, ℕ, ◌≤◌, Bool, true, List, [], ◌∷◌, ◌++◌};
ghost use Rattle.plan.specs.declared.passage.Passage.{Passage};
ghost use Rattle.plan.specs.Passages.{Next};

use crate::passage::Passage;

/// One to whom the passages of a table are shown, one after the other.
pub trait Visitor {
    // whether its lists have their lengths for so many rows
    ghost fits: { Self → ℕ → Bool };

    // whether a passage may be, in a table of so many rows: its colour, and the rows from which and to which it leads
    ghost rule: { Self → ℕ → ℕ → ℕ → ℕ → Bool };

    // that it was shown these passages of a table of so many rows
    ghost seen: { Self → ℕ → List Passage → Type 0 };

    /// Begins with a table of so many rows, and tells whether its lists have their lengths.
    fn begin(&mut self, rows: usize) -> bool
        requires { rows ≤ 1024 }
        ensures fits { result ≡ fits self.old rows }
        ensures same { rule self.new ≡ rule self.old }
        ensures seen { result ≡ true → seen self.new rows [] };

    /// Is shown the next passage, and tells whether it may be.
    fn visit(&mut self, rows: usize, passage: Passage) -> bool
        requires { (before : List Passage) × (seen self.old rows before × Next rows before passage) }
        ensures ruled { result ≡ rule self.old rows passage.colour passage.from passage.to }
        ensures same { rule self.new ≡ rule self.old }
        ensures seen { (before : List Passage) → seen self.old rows before → Next rows before passage → seen self.new rows (before ++ passage ∷ []) };
}
