// The interface that every twist source keeps, and the sources there are.
#![tactic(auto)]

mod laws;
mod mark;
mod parity;
mod register;
mod turned;

ghost use Rattle.std.specs.Prelude.{◌≡◌, ℕ, true, is_ok};
ghost use Rattle.twist.specs.Model.{TwistModel, TwistLaws, mark_after};

pub use laws::turned_twice;
pub use mark::UnlawfulMark;
pub use parity::Parity;
pub use register::Register;
pub use turned::Turned;

/// A source of twists, one for each cell and step; its mark is all that it remembers.
pub trait TwistSource: Copy {
    ghost model: { Self → TwistModel };

    ghost mark: { Self → ℕ };

    // A number and no enum: sources that customers bring have kinds of their own.
    fn kind(&self) -> u8
        ensures { result ≡ (model self.now).kind };

    fn first_mark(&self) -> u32
        ensures { result ≡ (model self.now).first };

    fn is_lawful(&self, offered: u32) -> bool
        ensures { result ≡ (model self.now).lawful offered };

    /// The bit for a cell in a step; the mark moves to the next one.
    fn ask(&mut self, step: u32, column: u32, row: u32) -> bool
        ensures answer { result ≡ (model self.old).bit (mark self.old) step column row }
        ensures moved { mark self.new ≡ (model self.old).next (mark self.old) }
        ensures same { model self.new ≡ model self.old };

    fn tell_mark(&self) -> u32
        ensures { result ≡ mark self.now };

    /// Takes a new mark if it is lawful; otherwise the old one stays.
    fn set_mark(&mut self, offered: u32) -> Result<(), UnlawfulMark>
        ensures answer { is_ok result ≡ (model self.old).lawful offered }
        ensures held { mark self.new ≡ mark_after (model self.old) (mark self.old) offered }
        ensures same { model self.new ≡ model self.old };

    ghost lawful: { (s : Self) → TwistLaws (model s) };

    ghost marked: { (s : Self) → (model s).lawful (mark s) ≡ true };
}
