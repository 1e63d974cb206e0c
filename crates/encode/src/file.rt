// The file of a tunnel: six records in turn.
ghost use Rattle.std.specs.Prelude.{◌≡◌, ◌*◌, ◌≤◌, length};
ghost use Rattle.text.specs.Buffers.{over};
ghost use Rattle.encode.specs.Encodings.{file_of, file_length};
ghost use Rattle.encode.specs.Handed.{held};

use super::accounts::book_bytes;
use super::held::Held;
use super::record::put_record;
use super::rules::rules_bytes;
use gas::Gas;
use records::Kind;
use text::Sheet;
use twist::TwistSource;

impl<'a, G: Gas, S: TwistSource> Held<'a, G, S> {
    /// Writes the file of the tunnel into the front of `out` and answers its length.
    pub fn write_file(&self, out: &mut [u8]) -> usize
        requires { file_length (G.Gas.model self.now.gas.now) (self.now.state.now.grid.width * self.now.state.now.grid.height) ≤ length out.old }
        ensures answer { result ≡ file_length (G.Gas.model self.now.gas.now) (self.now.state.now.grid.width * self.now.state.now.grid.height) }
        ensures written { out.new ≡ over (file_of (held G.Gas S.TwistSource self.now)) out.old }
    {
        let cells = self.state.grid.cells();
        let mut entries = [0u8; 256];
        let mut sheet = Sheet::new(out);
        put_record(Kind::Head, &self.head_bytes(), &mut sheet);
        put_record(Kind::Rules, rules_bytes(self.gas, &mut entries), &mut sheet);
        put_record(Kind::Map, &self.map[..cells], &mut sheet);
        put_record(Kind::Field, &self.field[..cells], &mut sheet);
        put_record(Kind::Book, &book_bytes(&self.state.book), &mut sheet);
        put_record(Kind::End, &[], &mut sheet);
        sheet.place()
    }
}
