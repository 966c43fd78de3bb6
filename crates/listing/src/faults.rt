//! Why a site sheet gets no listing, and the line that says so.
ghost use Rattle.std.specs.Prelude.{◌≡◌, Some};
ghost use Rattle.listing.specs.declared.faults.SiteFault.TheVariants.{InSheet, InPlan};
ghost use Rattle.listing.specs.Faults.{fault_line};

use plan::refusals::Refusal;
use sheet::reading::Fault;
use std::fmt;

/// Why a site sheet gets no listing: a fault of the sheet, or a refusal of its plan.
#[derive(Clone, Copy)]
pub enum SiteFault {
    InSheet(Fault),
    InPlan(Refusal),
}

// Written by hand: the derive that writes such impls promises neither which variant `from` makes nor what the line is.
impl From<Fault> for SiteFault {
    ghost from_gives = { λ e r. r ≡ InSheet e };

    fn from(e: Fault) -> SiteFault {
        SiteFault::InSheet(e)
    }
}

impl From<Refusal> for SiteFault {
    ghost from_gives = { λ e r. r ≡ InPlan e };

    fn from(e: Refusal) -> SiteFault {
        SiteFault::InPlan(e)
    }
}

/// The line of the fault: the word `fault`, the number, the layer and, for a fault of the sheet, the place.
impl fmt::Display for SiteFault {
    ghost output = { λ e. Some (fault_line e) };

    fn fmt<W: fmt::Write>(&self, f: &mut fmt::Formatter<W>) -> fmt::Result {
        match *self {
            SiteFault::InSheet(fault) => write!(f, "{fault}"),
            SiteFault::InPlan(refusal) => {
                let number = refusal.number();
                write!(f, "fault {number} plan")
            }
        }
    }
}
