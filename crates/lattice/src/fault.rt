// What can be wrong with a grid's size.

/// The first rule that a width and a height break.
#[derive(Clone, Copy, Debug, PartialEq)]
pub enum GridFault {
    Width,
    Height,
    Area,
}
