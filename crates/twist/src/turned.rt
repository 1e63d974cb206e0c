// A source that stands on any other.
ghost use Rattle.twist.specs.Kinds.{turned as turned_model};
ghost use Rattle.twist.specs.Sources.{turned_laws};
ghost use Rattle.std.proofs.Common.{rules};

use super::TwistSource;
use super::mark::UnlawfulMark;

/// The lower source's bit in even steps, the other bit in odd ones; all else is the lower one's.
#[derive(Clone, Copy)]
pub struct Turned<S: TwistSource> {
    pub lower: S,
}

impl<S: TwistSource> TwistSource for Turned<S> {
    ghost model = { λ s. turned_model (S.TwistSource.model s.lower) };

    ghost mark = { λ s. S.TwistSource.mark s.lower };

    ghost lawful = { λ s. turned_laws (S.TwistSource.model s.lower) (S.TwistSource.lawful s.lower) };

    ghost marked = { Prim.search rules };

    fn kind(&self) -> u8 {
        self.lower.kind() ^ 64
    }

    fn first_mark(&self) -> u32 {
        self.lower.first_mark()
    }

    fn is_lawful(&self, offered: u32) -> bool {
        self.lower.is_lawful(offered)
    }

    fn ask(&mut self, step: u32, column: u32, row: u32) -> bool {
        let bit = self.lower.ask(step, column, row);
        if step % 2 == 1 { !bit } else { bit }
    }

    fn tell_mark(&self) -> u32 {
        self.lower.tell_mark()
    }

    fn set_mark(&mut self, offered: u32) -> Result<(), UnlawfulMark> {
        self.lower.set_mark(offered)
    }
}
