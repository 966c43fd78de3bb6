//! What a table of numbers is computed with: the operations of elimination, and those that solving needs besides.
ghost use Rattle.std.specs.Prelude.{◌≡◌, ℕ};

/// A kind of number that can be eliminated with. Every result depends on the arguments alone, and no function refuses.
pub trait Arithmetic: Copy {
    // the number at a place where nothing stands
    ghost nothing: { Self };

    // a u d v: what a becomes in a step with pivot d, whose column has u in a's row and v in the row of a's column
    ghost updated: { Self → Self → Self → Self → Self };

    // 0: the number may be a pivot; any other: the cause why not
    ghost judged: { Self → ℕ };

    /// The number that stands for nothing.
    fn nothing() -> Self
        ensures { result ≡ nothing };

    /// What `a` becomes in a step with pivot `d`, where `u` stands in a's row and `v` in the row of a's column.
    fn update(a: Self, u: Self, d: Self, v: Self) -> Self
        ensures { result ≡ updated a u d v };

    /// 0 where `d` may be a pivot, and else the cause why not.
    // A number and no enum, by the rule that 0 passes for every kind, and any other number is a cause of the kind's own.
    fn verdict(d: Self) -> u32
        ensures { result ≡ judged d };

    // nothing in its row leaves a number as it is
    ghost row: { (a d v : Self) → updated a nothing d v ≡ a };

    // and so does nothing in the row of its column
    ghost column: { (a u d : Self) → updated a u d nothing ≡ a };
}

/// A kind of number that can be solved with, too. The promises of `take` and of `over` both say that taking away nothing
/// leaves a number as it is.
pub trait Solving: Arithmetic {
    // b u y: what is left of b without u times y
    ghost taken: { Self → Self → Self → Self };

    // b d: b over d
    ghost divided: { Self → Self → Self };

    /// What is left of `b` without `u` times `y`.
    fn take(b: Self, u: Self, y: Self) -> Self
        ensures is { result ≡ taken b u y }
        ensures idle { (b y : Self) → taken b Self.Arithmetic.nothing y ≡ b };

    /// The quotient of `b` by `d`.
    fn over(b: Self, d: Self) -> Self
        ensures is { result ≡ divided b d }
        ensures idle { (b y : Self) → taken b Self.Arithmetic.nothing y ≡ b };

    // nothing, however often, takes nothing away
    ghost calm: { (b y : Self) → taken b Self.Arithmetic.nothing y ≡ b };
}
