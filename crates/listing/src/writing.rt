//! Writing on a page: a lent table, from its front on. What falls past the table's end is counted and not written, so that the
//! same run over an empty table tells how much room it needs.
ghost use Rattle.std.specs.Prelude.{◌≡◌, List, [], ◌∷◌, length, decimal};
ghost use Rattle.listing.specs.Tables.{Puts, CallPuts, answer_for, table_for};
ghost use Rattle.listing.specs.Texts.{spaced};

use crate::refusals::TooShort;

/// A lent table, and how many items were put on it.
#[derive(Drop)]
pub(crate) struct Page<'a, T> {
    table: &'a mut [T],
    len: usize,
}

impl<'a, T: Copy + Drop> Page<'a, T> {
    /// The table, with nothing put on it yet.
    pub(crate) fn new(table: &'a mut [T]) -> Page<'a, T>
        ensures same { result.table.ghost_name ≡ table.entry.ghost_name }
        ensures held { result.table.now ≡ table.old }
        ensures len { result.len ≡ 0 }
    {
        Page { table, len: 0 }
    }

    /// How many items were put.
    pub(crate) fn len(&self) -> usize
        ensures { result ≡ self.now.len }
    {
        self.len
    }

    /// Puts an item.
    pub(crate) fn push(&mut self, item: T)
        ensures { Puts (item ∷ []) self.old self.new }
    {
        // By index: tried with `get_mut`, and what is written through it into a field was not proved.
        if self.len < self.table.len() {
            self.table[self.len] = item;
        }
        // The count would stay at the largest number; no text of a plan comes near it.
        self.len = self.len.saturating_add(1);
    }

    /// Puts each of some items.
    pub(crate) fn extend(&mut self, items: &[T])
        ensures { Puts items.now self.old self.new }
    {
        for item in items {
            self.push(*item);
        }
    }
}

impl Page<'_, u8> {
    /// Puts the decimal digits of a number.
    pub(crate) fn number(&mut self, number: usize)
        ensures { Puts (decimal number) self.old self.new }
    {
        if number >= 10 {
            self.number(number / 10);
        }
        self.push(b'0' + (number % 10) as u8);
    }

    /// Puts a space and a number.
    pub(crate) fn spaced(&mut self, number: usize)
        ensures { Puts (spaced number) self.old self.new }
    {
        self.push(b' ');
        self.number(number);
    }
}

/// How many items a call puts, once they stand at the front of the table. Refused exactly when there are more than the table
/// holds, and the table is then as it was.
pub(crate) fn write_all<T: Copy + Drop, F: Fn(&mut Page<T>)>(
    table: &mut [T],
    put: F,
) -> Result<usize, TooShort>
    requires { F.IsAlwaysCallable put }
    ensures answer { (xs : List T) → CallPuts (F.post put) xs → result ≡ answer_for xs table.old }
    ensures table { (xs : List T) → CallPuts (F.post put) xs → table.new ≡ table_for xs table.old }
{
    // `listing_length` runs so, too: a generic function for it was tried, and got no proof where no table gives T a lifetime.
    let mut count = Page::new(&mut []);
    put(&mut count);
    if count.len > table.len() {
        return Err(TooShort);
    }
    let mut page = Page::new(table);
    put(&mut page);
    Ok(page.len)
}
