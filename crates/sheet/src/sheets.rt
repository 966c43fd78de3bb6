//! A sheet that keeps every rule.
ghost use Rattle.sheet.specs.Patterns.{Lawful};
ghost use Rattle.sheet.specs.Drafts.{drafted};

use crate::drafts::Draft;

/// What a site sheet says: a draft whose words have all been read.
#[derive(Drop)]
pub struct Sheet {
    pub(crate) draft: Draft,
    ghost lawful: { Lawful (drafted draft) },
}
