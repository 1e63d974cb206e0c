// One record: its header, and its payload behind it.
ghost use Rattle.std.specs.Prelude.{◌^◌, ◌<◌, length};
ghost use Rattle.records.specs.Format.{record_of};
ghost use Rattle.records.specs.Kinds.{number_of};
ghost use Rattle.text.specs.Sheets.{Adds};

use records::{Kind, check_of};
use text::Sheet;

/// Puts a record: the kind in one byte, the payload's length in three, its check in four, and the payload.
pub(crate) fn put_record(kind: Kind, payload: &[u8], sheet: &mut Sheet)
    requires { length payload.now < 2 ^ 24 }
    ensures { Adds (record_of (number_of kind) payload.now) sheet.old sheet.new }
{
    let [l0, l1, l2, _] = (payload.len() as u32).to_le_bytes();
    sheet.put_bytes(&[u8::from(kind), l0, l1, l2]);
    sheet.put_bytes(&check_of(payload).to_le_bytes());
    sheet.put_bytes(payload);
}
