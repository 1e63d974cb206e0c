// A grid that keeps the limits, by its type.
ghost use Rattle.std.specs.Prelude.{◌≡◌, ◌*◌, ◌%◌, ◌≤◌};

/// A lawful grid: 2 to 256 columns, an even number of 2 to 256 rows, at most 16,384 cells.
#[derive(Clone, Copy)]
pub struct Grid {
    pub(crate) width: u32,
    pub(crate) height: u32,
    ghost wide: { 2 ≤ width },
    ghost narrow: { width ≤ 256 },
    ghost high: { 2 ≤ height },
    ghost low: { height ≤ 256 },
    ghost even: { height % 2 ≡ 0 },
    ghost few: { width * height ≤ 16384 },
}
