//! The picking rule that follows the order words of a sheet.
ghost use Rattle.std.specs.Prelude.{◌≡◌};
ghost use Rattle.sheet.specs.Views.{pattern_of};
ghost use Rattle.plan.specs.Given.{prices_of, GivenBy};

use crate::refusals::Refusal;
use crate::rules::Rule;
use sheet::sheets::Sheet;

/// Given order: the price is the label's place among the sheet's order words, counted from 1, and 2^32 - 1 for a label that is
/// not among them.
#[derive(Clone, Copy)]
pub struct GivenOrder {
    places: [u32; 512],
}

impl GivenOrder {
    /// The rule of a sheet; refused exactly when the sheet has no order words.
    pub fn of(sheet: &Sheet) -> Result<GivenOrder, Refusal>
        ensures { GivenBy (pattern_of sheet.now).order result }
    {
        let order = sheet.order();
        if order.is_empty() {
            return Err(Refusal::NoOrder);
        }
        let mut places = [u32::MAX; 512];
        for (i, label) in order[..sheet.n() as usize].iter().enumerate() {
            places[*label as usize - 1] = i as u32 + 1;
        }
        Ok(GivenOrder { places })
    }
}

impl Rule for GivenOrder {
    ghost priced = { prices_of };

    fn price(&self, label: u16, _degree: u16) -> u32 {
        if label < 1 || label > 512 {
            return u32::MAX;
        }
        self.places[label as usize - 1]
    }
}
