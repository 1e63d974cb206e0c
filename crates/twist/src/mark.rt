// The refusal of a mark.

/// The mark is none that the source can hold.
#[derive(Clone, Copy, Debug, PartialEq)]
pub struct UnlawfulMark;
