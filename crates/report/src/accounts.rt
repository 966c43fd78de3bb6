//! What a sheet holds, in words: its counts, its nodes with their neighbours, and its order.
ghost use Rattle.std.specs.Prelude.{Some};
ghost use Rattle.sheet.specs.Views.{pattern_of};
ghost use Rattle.report.specs.Accounts.{account_text, node_lines, neighbours_text, order_line, spaced};

use sheet::sheets::Sheet;
use std::fmt;

/// The text of a sheet, each line of which ends in a line feed.
#[derive(Clone, Copy)]
pub struct Account<'a>(pub &'a Sheet);

impl fmt::Display for Account<'_> {
    ghost output = { λ x. Some (account_text (pattern_of x.0.now)) };

    fn fmt<W: fmt::Write>(&self, f: &mut fmt::Formatter<W>) -> fmt::Result {
        let Account(sheet) = *self;
        let n = sheet.n();
        let links = sheet.links().len();
        let given = sheet.order().len();
        let nodes = Nodes(sheet);
        let order = Order(sheet.order());
        write!(
            f,
            "nodes {n}\nlinks {links}\norder words {given}\n{nodes}{order}"
        )
    }
}

/// A line for each node in turn: its label, a colon and the labels that it is linked to.
#[derive(Clone, Copy)]
struct Nodes<'a>(&'a Sheet);

impl fmt::Display for Nodes<'_> {
    ghost output = { λ x. Some (node_lines (pattern_of x.0.now)) };

    fn fmt<W: fmt::Write>(&self, f: &mut fmt::Formatter<W>) -> fmt::Result {
        for label in 1..=self.0.n() {
            let neighbours = Neighbours(self.0, label);
            writeln!(f, "{label} :{neighbours}")?;
        }
        Ok(())
    }
}

/// The labels that a label is linked to, ascending, with a space before each.
#[derive(Clone, Copy)]
struct Neighbours<'a>(&'a Sheet, u16);

impl fmt::Display for Neighbours<'_> {
    ghost output = { λ x. Some (neighbours_text (pattern_of x.0.now) x.1) };

    fn fmt<W: fmt::Write>(&self, f: &mut fmt::Formatter<W>) -> fmt::Result {
        let Neighbours(sheet, label) = *self;
        // The loop of `Labels` with a test: a function over any iterator would need more clauses than it has lines.
        for other in 1..=sheet.n() {
            if sheet.linked(label, other) {
                write!(f, " {other}")?;
            }
        }
        Ok(())
    }
}

/// The line of the order labels, or nothing where there are none.
#[derive(Clone, Copy)]
struct Order<'a>(&'a [u16]);

impl fmt::Display for Order<'_> {
    ghost output = { λ x. Some (order_line x.0.now) };

    fn fmt<W: fmt::Write>(&self, f: &mut fmt::Formatter<W>) -> fmt::Result {
        if self.0.is_empty() {
            return Ok(());
        }
        let labels = Labels(self.0);
        writeln!(f, "order :{labels}")
    }
}

/// Labels in turn, with a space before each.
#[derive(Clone, Copy)]
struct Labels<'a>(&'a [u16]);

impl fmt::Display for Labels<'_> {
    ghost output = { λ x. Some (spaced x.0.now) };

    fn fmt<W: fmt::Write>(&self, f: &mut fmt::Formatter<W>) -> fmt::Result {
        for label in self.0 {
            write!(f, " {label}")?;
        }
        Ok(())
    }
}
