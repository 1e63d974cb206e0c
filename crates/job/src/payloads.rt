// Each payload is judged for its length, and then byte by byte: rules, map, field and end.
ghost use Rattle.std.specs.Prelude.{◌≡◌, ℕ, ◌*◌, length};
ghost use Rattle.records.specs.Layout.{Inside, part};
ghost use Rattle.job.specs.Grounds.{length_fault, rules_fault, map_fault, field_fault, end_fault};
ghost use Rattle.job.specs.Outcomes.{judgment};

use dynamics::HIGHEST_MAP_BYTE;
use faults::JobFault;
use gas::{Gas, TableFault};
use lattice::{first_from, states_of};
use records::Place;

/// A payload, and the number of its record.
#[derive(Clone, Copy)]
pub(crate) struct Payload<'a> {
    pub(crate) number: usize,
    pub(crate) bytes: &'a [u8],
}

impl<'a> Payload<'a> {
    /// The payload at this place of a file.
    pub(crate) fn at(place: Place, file: &'a [u8]) -> Payload<'a>
        requires { Inside file.now place }
        ensures { (result.number, result.bytes.now) ≡ part file.now place }
    {
        Payload {
            number: place.record,
            bytes: place.payload(file),
        }
    }

    /// The payload has this length.
    pub(crate) fn judge_length(&self, wanted: usize) -> Result<(), JobFault>
        ensures { result ≡ judgment (length_fault self.now.number wanted self.now.bytes.now) }
    {
        if self.bytes.len() != wanted {
            return Err(JobFault::Length(self.number));
        }
        Ok(())
    }

    /// The rules are two sound entries for each state.
    pub(crate) fn judge_rules<G: Gas>(&self, gas: &G) -> Result<(), JobFault>
        ensures { result ≡ judgment (rules_fault (G.model gas.now) self.now.number self.now.bytes.now) }
    {
        self.judge_length(2 * states_of(gas.channels()))?;
        let number = self.number;
        gas.first_unsound(self.bytes).map_err(|TableFault::Unsound(place)| JobFault::Entry(
            number, place,
        ))
    }

    /// The map has a byte for each cell, none above the highest.
    pub(crate) fn judge_map(&self, cells: usize) -> Result<(), JobFault>
        ensures { result ≡ judgment (map_fault cells self.now.number self.now.bytes.now) }
    {
        self.judge_length(cells)?;
        match first_from(self.bytes, HIGHEST_MAP_BYTE as usize + 1) {
            Some(place) => Err(JobFault::MapByte(self.number, place)),
            None => Ok(()),
        }
    }

    /// The field has a state for each cell.
    pub(crate) fn judge_field<G: Gas>(&self, gas: &G, cells: usize) -> Result<(), JobFault>
        ensures { result ≡ judgment (field_fault (G.model gas.now) cells self.now.number self.now.bytes.now) }
    {
        self.judge_length(cells)?;
        match first_from(self.bytes, states_of(gas.channels())) {
            Some(place) => Err(JobFault::FieldByte(self.number, place)),
            None => Ok(()),
        }
    }

    /// The end record has no payload.
    pub(crate) fn judge_end(&self) -> Result<(), JobFault>
        ensures { result ≡ judgment (end_fault self.now.number self.now.bytes.now) }
    {
        self.judge_length(0)
    }
}
