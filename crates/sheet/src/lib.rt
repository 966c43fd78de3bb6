//! Site sheets: from bytes to words, from words to records, from records to a sheet, or to the first fault.
#![tactic(auto)]

pub mod drafts;
pub mod faults;
pub mod lookups;
pub mod reading;
pub mod records;
pub mod room;
pub mod sheets;
pub mod table;
pub mod words;
