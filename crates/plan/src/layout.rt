//! The columns of a plan, laid out one after the other.
ghost use Rattle.std.specs.Prelude.{◌≡◌, ◌+◌, ◌<◌, ◌≤◌, false, [], ◌∷◌, ◌++◌, map, length, vec_len, vec_capacity};
ghost use Rattle.plan.specs.Laid.{laid_rows, laid_starts, laid_marks};
ghost use Rattle.plan.specs.Views.{rows_of, link_of};

use crate::laying::Elimination;

/// The columns that are laid out, and where each starts. The rows and their marks stand side by side.
#[derive(Drop)]
pub(crate) struct Layout {
    pub(crate) starts: Vec<u32>,
    pub(crate) rows: Vec<u16>,
    pub(crate) links: Vec<bool>,
    ghost beside: { vec_len links ≡ vec_len rows },
    ghost room: { (513 ≤ vec_capacity starts) × (8192 ≤ vec_capacity rows) × (8192 ≤ vec_capacity links) },
}

impl Layout {
    /// Appends a place, and whether it is a link of the sheet.
    fn push_place(&mut self, row: u16, link: bool)
        requires { vec_len self.old.rows < 8192 }
        ensures starts { self.new.starts ≡ self.old.starts }
        ensures rows { self.new.rows.items ≡ self.old.rows.items ++ row ∷ [] }
        ensures links { self.new.links.items ≡ self.old.links.items ++ link ∷ [] }
    {
        self.rows.push_reserved(row);
        self.links.push_reserved(link);
    }

    /// Appends the column at index k, its diagonal first.
    fn push_column(&mut self, from: &Elimination, k: usize)
        requires within { k < length from.now.order.now }
        requires room { vec_len self.old.rows + (1 + length (rows_of from.now (k + 1))) ≤ 8192 }
        ensures starts { self.new.starts ≡ self.old.starts }
        ensures rows { self.new.rows.items ≡ self.old.rows.items ++ (k + 1) ∷ rows_of from.now (k + 1) }
        ensures links { self.new.links.items ≡ self.old.links.items ++ false ∷ map (link_of from.now (k + 1)) (rows_of from.now (k + 1)) }
    {
        self.push_place(k as u16 + 1, false);
        for i in from.column(k).iter() {
            self.push_place(
                i + 1,
                from.sheet.linked(from.order[k], from.order[i as usize]),
            );
        }
    }

    /// Lays out all columns, one after the other.
    pub(crate) fn lay_out(&mut self, from: &Elimination)
        requires empty { (vec_len self.old.starts ≡ 0) × (vec_len self.old.rows ≡ 0) }
        requires few { length (laid_rows (rows_of from.now) (length from.now.order.now)) ≤ 8192 }
        ensures starts { self.new.starts.items ≡ laid_starts (rows_of from.now) (length from.now.order.now) }
        ensures rows { self.new.rows.items ≡ laid_rows (rows_of from.now) (length from.now.order.now) }
        ensures links { self.new.links.items ≡ laid_marks (rows_of from.now) (link_of from.now) (length from.now.order.now) }
    {
        self.starts.push_reserved(0);
        // By number: a column is asked for by its index, and is more than the label at it.
        for k in 0..from.order.len() {
            self.push_column(from, k);
            self.starts.push_reserved(self.rows.len() as u32);
        }
    }
}
