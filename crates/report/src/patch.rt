// A patch as a report tells of it.
use gas::Totals;

/// Where a patch is among the patches, and what its cells hold together.
#[derive(Clone, Copy)]
pub(crate) struct Patch {
    pub(crate) column: u32,
    pub(crate) row: u32,
    pub(crate) totals: Totals,
}
