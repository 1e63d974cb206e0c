// The source that goes by the parity of column, row and step.
ghost use Rattle.twist.specs.Kinds.{parity as parity_model};
ghost use Rattle.twist.specs.Sources.{parity_laws};
ghost use Rattle.std.proofs.Common.{rules};

use super::TwistSource;
use super::mark::UnlawfulMark;

/// Kind 1: the bit is (column + row + step) mod 2, and the mark is always 0.
#[derive(Clone, Copy)]
pub struct Parity;

impl TwistSource for Parity {
    ghost model = { λ _. parity_model };

    ghost mark = { λ _. 0 };

    ghost lawful = { λ s. parity_laws };

    ghost marked = { Prim.search rules };

    fn kind(&self) -> u8 {
        1
    }

    fn first_mark(&self) -> u32 {
        0
    }

    fn is_lawful(&self, offered: u32) -> bool {
        offered == 0
    }

    fn ask(&mut self, step: u32, column: u32, row: u32) -> bool {
        (column % 2 + row % 2 + step % 2) % 2 == 1
    }

    fn tell_mark(&self) -> u32 {
        0
    }

    fn set_mark(&mut self, offered: u32) -> Result<(), UnlawfulMark> {
        if self.is_lawful(offered) {
            Ok(())
        } else {
            Err(UnlawfulMark)
        }
    }
}
