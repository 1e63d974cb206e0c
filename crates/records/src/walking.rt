// The walk over a file: record by record, as far as the end record.
ghost use Rattle.std.specs.Prelude.{◌≡◌, ℕ, ◌+◌, ◌<◌, ◌≤◌, length, IfOk};
ghost use Rattle.records.specs.Kinds.{number_of};
ghost use Rattle.records.specs.Walk.{begin, behind, place_at, noted, turn, Goes, largest_file, walked};
ghost use Rattle.records.specs.Layout.{Layout};
ghost use Rattle.records.specs.Stops.{Refusal};

use super::format::{HEADER_LENGTH, check_of, read_header};
use super::kinds::Kind;
use super::payloads::{Place, Places};
use super::sequence::{Order, OrderFault};
use faults::RecordFault;
use std::ops::ControlFlow;

/// No file is longer.
pub const LARGEST_FILE: usize = 65_536;

// How far the walk has come: the place in the file, the records so far, their order, and what was noted. A place and no slice, since payloads are
// noted by their places.
#[derive(Clone, Copy)]
struct Cursor {
    at: usize,
    count: usize,
    order: Order,
    places: Places,
}

// What is asked of a cursor differs from call to call: how far the file reaches behind it.
impl Cursor {
    fn new() -> Cursor
        ensures { result ≡ begin }
    {
        Cursor {
            at: 0,
            count: 0,
            order: Order::new(),
            places: Places::default(),
        }
    }

    // The walk behind this record, whose payload has this length.
    fn past(self, length: usize, order: Order, places: Places) -> Cursor
        requires { (self.at + 8 + length ≤ 65536) × (self.count ≤ self.at) }
        ensures { result ≡ behind self length order.next places }
    {
        Cursor {
            at: self.at + HEADER_LENGTH + length,
            count: self.count + 1,
            order,
            places,
        }
    }

    // The places, with this record's payload.
    fn noting(self, kind: Kind, length: usize) -> Places
        requires { self.at ≤ 65536 }
        ensures { result ≡ noted self.places (number_of kind) (place_at self length) }
    {
        let mut places = self.places;
        let place = Place {
            record: self.count,
            start: self.at + HEADER_LENGTH,
            length,
        };
        places.note(kind, place);
        places
    }
}

// Judges the record at the front of `bytes`, which are the file from `c.at` on: the walk goes on behind it, or is done.
fn judge_record(bytes: &[u8], c: Cursor) -> Result<ControlFlow<Places, Cursor>, RecordFault>
    requires { (c.at + length bytes.now ≤ 65536) × (c.count ≤ c.at) }
    ensures answers { result ≡ turn c bytes.now }
    ensures goes { IfOk result (Goes c bytes.now) }
{
    let record = c.count;
    if bytes.is_empty() {
        return Err(RecordFault::Ending(record));
    }
    let (header, rest) = read_header(bytes).ok_or(RecordFault::Cut(record))?;
    let length = header.length as usize;
    if rest.len() < length {
        return Err(RecordFault::Cut(record));
    }
    if check_of(&rest[..length]) != header.check {
        return Err(RecordFault::Check(record));
    }
    let mut order = c.order;
    // No `From`: an order's fault does not know its record.
    match order.accept(header.kind) {
        Err(OrderFault::Unknown) => Err(RecordFault::Kind(record)),
        Err(OrderFault::NotNext) => Err(RecordFault::Order(record)),
        Ok(None) => Ok(ControlFlow::Continue(c.past(length, order, c.places))),
        Ok(Some(kind)) => {
            let places = c.noting(kind, length);
            if kind != Kind::End {
                Ok(ControlFlow::Continue(c.past(length, order, places)))
            } else if rest.len() == length {
                Ok(ControlFlow::Break(places))
            } else {
                Err(RecordFault::Ending(record + 1))
            }
        }
    }
}

/// Judges the file's records and says where the known ones' payloads lie.
pub fn walk(file: &[u8]) -> Result<Places, RecordFault>
    ensures answer { result ≡ walked largest_file file.now }
    ensures layout { Layout largest_file file.now result }
    ensures refusal { Refusal largest_file file.now result }
{
    if file.is_empty() || file.len() > LARGEST_FILE {
        return Err(RecordFault::Size);
    }
    let mut c = Cursor::new();
    'records: loop {
        let at = c.at;
        match judge_record(&file[at..], c)? {
            ControlFlow::Continue(next) => c = next,
            ControlFlow::Break(places) => return Ok(places),
        }
    }
}
