//! What is proved of the kinds of number beside the contract of each function.
ghost use Rattle.arith.specs.Examples.{WorkedSteps};
ghost use Rattle.arith.specs.Fields.{Field, residue_ring};
ghost use Rattle.arith.specs.Operations.{residues};
ghost use Rattle.arith.specs.Quotients.{Prime, OneQuotient};

/// States that 65,521 is prime, what the quotient of two residues is, and that the residues form a field in which
/// elimination and solving work by the field's formulas; it computes nothing.
pub fn residues_form_a_field()
    ensures prime { Prime 65521 }
    ensures quotients { OneQuotient }
    ensures field { Field residues residue_ring }
{}

/// States that the definitions give single steps and verdicts the numbers worked out for them; it computes nothing.
pub fn examples_work()
    ensures { WorkedSteps }
{}
