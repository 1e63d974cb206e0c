// What can be wrong with a list of entries.

/// Why a list of entries was not taken.
#[derive(Clone, Copy, Debug, PartialEq)]
pub enum TableFault {
    /// The entry at this place is unsound, missing or one too many.
    Unsound(usize),
}
