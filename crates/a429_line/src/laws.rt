//! What follows from the definitions.
ghost use Rattle.std.specs.Prelude.{◌≡◌, ℕ, List};
ghost use Rattle.a429_line.specs.Cuts.{IsCut};
ghost use Rattle.a429_line.specs.Reports.{Run, runs};
ghost use Rattle.a429_line.specs.declared.found.Symbol.{Symbol};

/// A line is its runs, each after its gap, and then Nulls. Every run is maximal.
pub fn runs_cut_the_line()
    ensures { (x : List Symbol) → (nulls : ℕ) × IsCut x (runs x) nulls }
{}

/// There is no other way to cut it.
pub fn runs_are_the_only_cut()
    ensures { (x : List Symbol) (all : List Run) (nulls : ℕ) → IsCut x all nulls → all ≡ runs x }
{}
