// A lent buffer that is being filled: as many bytes as fit, and the place behind them.
ghost use Rattle.std.specs.Prelude.{◌≡◌, ◌+◌, ◌-◌, ◌^◌, ◌<◌, min, length, slice_set};

use itoa::Integer;

/// A text shorter than this is put byte by byte: a report is made of such, and the call that copies a piece takes longer than they do.
const SHORT: usize = 24;

/// A lent buffer, and the place reached in it.
#[derive(Drop)]
pub struct Sheet<'a> {
    out: &'a mut [u8],
    at: usize,
    ghost short: { length out.now < 2 ^ 64 },
    ghost counted: { at < 2 ^ 64 },
}

impl<'a> Sheet<'a> {
    ghost use Rattle.text.specs.Sheets.{Adds};

    /// A sheet with nothing on it yet.
    pub fn new(out: &'a mut [u8]) -> Sheet<'a>
        ensures buffer { result.out.ghost_name ≡ out.entry.ghost_name }
        ensures bytes { result.out.now ≡ out.old }
        ensures place { result.at ≡ 0 }
    {
        Sheet::starting_at(out, 0)
    }

    /// A sheet on which the next byte goes to this place.
    pub fn starting_at(out: &'a mut [u8], at: usize) -> Sheet<'a>
        ensures buffer { result.out.ghost_name ≡ out.entry.ghost_name }
        ensures bytes { result.out.now ≡ out.old }
        ensures place { result.at ≡ at }
    {
        Sheet { out, at }
    }

    /// The place behind what was put.
    pub fn place(&self) -> usize
        ensures { result ≡ self.now.at }
    {
        self.at
    }

    /// Puts one byte, if there is room for it.
    fn put_byte(&mut self, byte: u8)
        ensures end { self.new.at ≡ min (self.old.at + 1) (2 ^ 64 - 1) }
        ensures out { self.new.out.now ≡ slice_set self.old.out.now self.old.at byte }
        ensures buffer { self.new.out.ghost_name ≡ self.old.out.ghost_name }
    {
        let place = self.at;
        self.at = place.saturating_add(1);
        if place < self.out.len() {
            self.out[place] = byte;
        }
    }

    /// Puts bytes one by one.
    fn put_each(&mut self, bytes: &[u8])
        ensures { Adds bytes.now self.old self.new }
    {
        for byte in bytes {
            self.put_byte(*byte);
        }
    }

    /// Puts bytes in one piece.
    fn put_piece(&mut self, bytes: &[u8])
        ensures { Adds bytes.now self.old self.new }
    {
        let start = self.at.min(self.out.len());
        let count = bytes.len().min(self.out.len() - start);
        self.out[start..start + count].copy_from_slice(&bytes[..count]);
        self.at = self.at.saturating_add(bytes.len());
    }

    /// Puts bytes: as many as fit.
    pub fn put_bytes(&mut self, bytes: &[u8])
        ensures { Adds bytes.now self.old self.new }
    {
        if bytes.len() < SHORT {
            self.put_each(bytes)
        } else {
            self.put_piece(bytes)
        }
    }

    /// Puts a number's digits, with a minus sign before them if it is negative.
    pub fn put_number<I: Integer>(&mut self, number: I)
        ensures { Adds (I.text number) self.old self.new }
    {
        let mut buffer = itoa::Buffer::new();
        self.put_bytes(buffer.format(number).as_bytes());
    }
}
