// Making a grid, and reading it.
ghost use Rattle.std.specs.Prelude.{◌≡◌, ℕ, ◌+◌, ◌*◌, Bool, MatchResult};
ghost use Rattle.lattice.specs.Grids.{Lawful, judged};
ghost use Rattle.lattice.specs.GridViews.{Made};

use super::fault::GridFault;
use super::grid::Grid;

impl Grid {
    pub fn new(width: u32, height: u32) -> Result<Grid, GridFault>
        ensures { Made width height result }
    {
        if !(2..=256).contains(&width) {
            return Err(GridFault::Width);
        }
        if !(2..=256).contains(&height) || height % 2 != 0 {
            return Err(GridFault::Height);
        }
        if width * height > 16384 {
            return Err(GridFault::Area);
        }
        Ok(Grid { width, height })
    }

    /// The smallest grid: two columns and two rows.
    pub fn smallest() -> Grid
        ensures width { result.width ≡ 2 }
        ensures height { result.height ≡ 2 }
    {
        Grid {
            width: 2,
            height: 2,
        }
    }

    pub fn width(&self) -> u32
        ensures value { result ≡ self.now.width }
        ensures lawful { Lawful self.now.width self.now.height }
    {
        self.width
    }

    pub fn height(&self) -> u32
        ensures value { result ≡ self.now.height }
        ensures lawful { Lawful self.now.width self.now.height }
    {
        self.height
    }

    pub fn cells(&self) -> usize
        ensures value { result ≡ self.now.width * self.now.height }
    {
        (self.width * self.height) as usize
    }
}
