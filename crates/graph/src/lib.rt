//! The elimination graph: the definitions that plans are proved against, and what every elimination keeps.
#![tactic(auto)]

ghost use Rattle.std.specs.Prelude.{ℕ, Bool};
ghost use Rattle.graph.specs.Examples.{WorkedPatterns};
ghost use Rattle.graph.specs.Picking.{Price};
ghost use Rattle.graph.specs.Theorems.{Eliminates};

/// States that every elimination, by any price and over any links, keeps the theorems; it computes nothing.
pub fn eliminations_keep()
    ensures { (price : Price) (n : ℕ) (linked : ℕ → ℕ → Bool) → Eliminates price n linked }
{}

/// States that the definitions give six small patterns their orders, trees, places and fill; it computes nothing.
pub fn examples_work()
    ensures { WorkedPatterns }
{}
