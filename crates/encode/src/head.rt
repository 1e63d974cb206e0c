// The head: sixteen bytes of kinds, sizes, period, step count and mark.
ghost use Rattle.std.specs.Prelude.{◌≡◌};
ghost use Rattle.text.specs.Sheets.{Adds};
ghost use Rattle.encode.specs.Encodings.{head_bytes};
ghost use Rattle.encode.specs.Handed.{held};

use super::held::Held;
use super::numbers::two_bytes;
use gas::Gas;
use text::Sheet;
use twist::TwistSource;

impl<'a, G: Gas, S: TwistSource> Held<'a, G, S> {
    /// Puts the head.
    fn put_head(&self, sheet: &mut Sheet)
        ensures { Adds (head_bytes (held G.Gas S.TwistSource self.now).run) sheet.old sheet.new }
    {
        sheet.put_bytes(&[self.gas.kind(), self.state.source.kind()]);
        sheet.put_bytes(&two_bytes(self.state.grid.width()));
        sheet.put_bytes(&two_bytes(self.state.grid.height()));
        sheet.put_bytes(&two_bytes(self.state.period));
        sheet.put_bytes(&self.state.steps.to_le_bytes());
        sheet.put_bytes(&self.state.source.tell_mark().to_le_bytes());
    }

    /// The head's bytes.
    pub(crate) fn head_bytes(&self) -> [u8; 16]
        ensures { result ≡ head_bytes (held G.Gas S.TwistSource self.now).run }
    {
        let mut bytes = [0u8; 16];
        let mut sheet = Sheet::new(&mut bytes);
        self.put_head(&mut sheet);
        bytes
    }
}
