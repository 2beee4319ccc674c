// Revisions of source document 004, by the numbers of document 02 (R-9).
ghost use Rattle.std.specs.Prelude.{◌≡◌};
ghost use Rattle.refusal.specs.Results.{outcome_of};
ghost use Rattle.calendar.specs.Revisions.{is_revision, check_revision};

use refusal::Refusal;

pub const REVISION_1_0: u32 = 10;

// Document 01's, which callers inside the library and the tool pass.
pub const REVISION_1_2: u32 = 12;

pub fn is_revision(revision: u32) -> bool
    ensures { result ≡ is_revision revision }
{
    (revision == REVISION_1_0) | (revision == REVISION_1_2)
}

// The first check of every call that takes a revision.
pub fn check_revision(revision: u32) -> Result<(), Refusal>
    ensures { outcome_of result ≡ check_revision revision }
{
    if is_revision(revision) {
        return Ok(());
    }
    Err(Refusal::UnknownRevision)
}
