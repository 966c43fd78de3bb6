//! What the parts above ask of a sheet.
ghost use Rattle.std.specs.Prelude.{◌≡◌, length};
ghost use Rattle.sheet.specs.Patterns.{Lawful, linked_in};
ghost use Rattle.sheet.specs.Tables.{Shows};
ghost use Rattle.sheet.specs.Views.{pattern_of};

use crate::records::is_label;
use crate::sheets::Sheet;

impl Sheet {
    /// The number of nodes. Every sheet keeps the rules.
    pub fn n(&self) -> u16
        ensures value { result ≡ (pattern_of self.now).n }
        ensures lawful { Lawful (pattern_of self.now) }
    {
        self.draft.n
    }

    /// The links, as they stand on the sheet.
    pub fn links(&self) -> &[(u16, u16)]
        ensures { result.now ≡ (pattern_of self.now).links }
    {
        self.draft.links.as_slice()
    }

    /// The order labels in turn: every node once, or none.
    pub fn order(&self) -> &[u16]
        ensures { result.now ≡ (pattern_of self.now).order }
    {
        self.draft.order.as_slice()
    }

    /// Whether two labels are linked, in whichever order; labels that no node has are not.
    pub fn linked(&self, a: u16, b: u16) -> bool
        ensures { result ≡ linked_in (pattern_of self.now).links a b }
    {
        let n = self.draft.n;
        is_label(n, a) && is_label(n, b) && self.draft.table.linked(a, b)
    }

    /// The links as a table of 512 rows of 512 cells: row a - 1, column b - 1 says whether the labels a and b are linked.
    pub fn link_table(&self) -> &[bool]
        ensures size { length result.now ≡ 262144 }
        ensures shows { Shows (pattern_of self.now).links result.now }
    {
        self.draft.table.cells()
    }
}
