//! The full square: what the box is held to. It has a number at every pair of positions, and knows nothing of columns or places.
#![tactic(auto)]

ghost use Rattle.std.specs.Prelude.{◌≡◌, Ok};
ghost use Rattle.arith.specs.Fields.{Ring, Field, residue_ring};
ghost use Rattle.arith.specs.Operations.{marks, residues, operations_of, solvers_of};
ghost use Rattle.graph.specs.Picking.{Price};
ghost use Rattle.plan.specs.Planned.{Arrays, Keeps, planned};
ghost use Rattle.sheet.specs.Patterns.{Pattern};
ghost use Rattle.square.specs.Balance.{Balances};
ghost use Rattle.square.specs.Examples.{WorkedPairs};
ghost use Rattle.square.specs.Plans.{site_of, store_of};
ghost use Rattle.square.specs.Sites.{Knows};
ghost use Rattle.square.specs.Stores.{Closes, LeastStore, Serves, ServesSolving};

use arith::arithmetic::{Arithmetic, Solving};

pub mod calls;
pub mod refusals;
pub mod standings;

/// States that the square of a sheet's plan knows the sheet's nodes and links, the order by the picking rule and the number of
/// places; it computes nothing.
pub fn sites_know_sheets()
    ensures { (price : Price) (s : Pattern) (a : Arrays) → planned price s ≡ Ok a → Keeps a → Knows price s (site_of a) }
{}

/// States that the places of every plan are the diagonal and what the column equation gives over the links of the sheet, and
/// that order and positions undo each other; it computes nothing.
pub fn places_close()
    ensures { (a : Arrays) → Keeps a → Closes (site_of a) (store_of a) }
{}

/// States that the places of every plan serve, whatever is computed with; it computes nothing.
pub fn stores_serve<N: Arithmetic>()
    ensures { (a : Arrays) → Keeps a → Serves (operations_of N.Arithmetic) (site_of a) (store_of a) }
{}

/// States that they serve lives with solve among the calls, too; it computes nothing.
pub fn stores_serve_solving<N: Solving>()
    ensures { (a : Arrays) → Keeps a → ServesSolving (solvers_of N.Arithmetic N.taken N.divided) (site_of a) (store_of a) }
{}

/// States that in marks the places of every plan are the least store that serves; it computes nothing.
pub fn stores_are_least()
    ensures { (a : Arrays) → Keeps a → LeastStore marks a }
{}

/// States that where the numbers form a field, the levels of every plan balance the system that was eliminated last; it
/// computes nothing.
pub fn levels_balance<N: Solving>()
    ensures { (r : Ring N) → Field (solvers_of N.Arithmetic N.taken N.divided) r → (a : Arrays) → Keeps a → Balances (solvers_of N.Arithmetic N.taken N.divided) r (site_of a) }
{}

/// States that the levels of every plan balance in the residues, which are a field; it computes nothing.
pub fn residue_levels_balance()
    ensures { (a : Arrays) → Keeps a → Balances residues residue_ring (site_of a) }
{}

/// States that the definitions give two linked nodes the numbers, levels and refusals worked out for them; it computes nothing.
pub fn examples_work()
    ensures { WorkedPairs }
{}
