// The source that is a shift register.
ghost use Rattle.std.specs.Prelude.{◌≡◌, ◌≤◌};
ghost use Rattle.twist.specs.Kinds.{shifted, register as register_model};
ghost use Rattle.twist.specs.Sources.{register_laws};
ghost use Rattle.std.proofs.Common.{rules, arith};

use super::TwistSource;
use super::mark::UnlawfulMark;

const FIRST: u32 = 0xACE1;

const TAPS: u32 = 0xB400;

/// Kind 2: a shift register of 16 bits; the bit is the lowest of the mark.
#[derive(Clone, Copy)]
pub struct Register {
    mark: u32,
    ghost some: { 1 ≤ mark },
    ghost short: { mark ≤ 65535 },
}

/// The mark after an answer at this one.
fn shift(mark: u32) -> u32
    ensures { result ≡ shifted mark }
{
    if mark % 2 == 1 {
        (mark / 2) ^ TAPS
    } else {
        mark / 2
    }
}

impl Register {
    pub fn new() -> Register
        ensures { result.mark ≡ register_model.first }
    {
        Register { mark: FIRST }
    }
}

impl TwistSource for Register {
    ghost model = { λ _. register_model };

    ghost mark = { λ s. s.mark };

    ghost lawful = { λ s. register_laws };

    ghost marked = { first_of (Prim.search rules, Prim.grind (arith, Self.row.coded.inj)) };

    fn kind(&self) -> u8 {
        2
    }

    fn first_mark(&self) -> u32 {
        FIRST
    }

    fn is_lawful(&self, offered: u32) -> bool {
        (1..=65535).contains(&offered)
    }

    fn ask(&mut self, step: u32, column: u32, row: u32) -> bool {
        let old = self.mark;
        self.mark = shift(old);
        old % 2 == 1
    }

    fn tell_mark(&self) -> u32 {
        self.mark
    }

    fn set_mark(&mut self, offered: u32) -> Result<(), UnlawfulMark> {
        if !self.is_lawful(offered) {
            return Err(UnlawfulMark);
        }
        self.mark = offered;
        Ok(())
    }
}
