// Where the payloads of the known records lie.
ghost use Rattle.std.specs.Prelude.{◌≡◌};
ghost use Rattle.records.specs.Kinds.{number_of};
ghost use Rattle.records.specs.Walk.{noted};
ghost use Rattle.records.specs.Layout.{Inside, payload_at};

use super::kinds::Kind;

// A place and no slice: laws and tests tell where a payload begins.
/// A known record's number, counted from 0 with the skipped ones, and the place of its payload in the file.
#[derive(Clone, Copy, Debug, Default, PartialEq, Eq, Hash)]
pub struct Place {
    pub record: usize,
    pub start: usize,
    pub length: usize,
}

impl Place {
    /// The payload that lies here.
    pub fn payload(self, file: &[u8]) -> &[u8]
        requires { Inside file.now self }
        ensures { result.now ≡ payload_at file.now self }
    {
        let start = self.start;
        let end = start + self.length;
        &file[start..end]
    }
}

/// The places of the known records' payloads.
// Six fields, not an array by kind: a caller names the place that it wants.
#[derive(Clone, Copy, Debug, Default, PartialEq, Eq, Hash)]
pub struct Places {
    pub head: Place,
    pub rules: Place,
    pub map: Place,
    pub field: Place,
    pub book: Place,
    pub end: Place,
}

impl Places {
    // Notes where the payload of the record of this kind lies.
    pub(crate) fn note(&mut self, kind: Kind, place: Place)
        ensures { self.new ≡ noted self.old (number_of kind) place }
    {
        match kind {
            Kind::Head => self.head = place,
            Kind::Rules => self.rules = place,
            Kind::Map => self.map = place,
            Kind::Field => self.field = place,
            Kind::Book => self.book = place,
            Kind::End => self.end = place,
        }
    }
}
