// The kinds of record that a file is made of, and their numbers.
ghost use Rattle.std.specs.Prelude.{◌≡◌};
ghost use Rattle.records.specs.Kinds.{number_of, Numbered};

/// A record that a file is made of, in the order of their numbers, from 1.
#[derive(Clone, Copy, Debug, PartialEq, Eq, Hash)]
pub enum Kind {
    End,
    Head,
    Rules,
    Map,
    Field,
    Book,
}

/// No kind has the number.
#[derive(Clone, Copy, Debug, PartialEq, Eq, Hash)]
pub struct UnknownKind;

impl From<Kind> for u8 {
    ghost from_gives = { λ kind number. number ≡ number_of kind };

    fn from(kind: Kind) -> u8 {
        match kind {
            Kind::End => 1,
            Kind::Head => 2,
            Kind::Rules => 3,
            Kind::Map => 4,
            Kind::Field => 5,
            Kind::Book => 6,
        }
    }
}

impl TryFrom<u8> for Kind {
    type Error = UnknownKind;

    ghost try_from_gives = { Numbered };

    fn try_from(number: u8) -> Result<Kind, UnknownKind> {
        match number {
            1 => Ok(Kind::End),
            2 => Ok(Kind::Head),
            3 => Ok(Kind::Rules),
            4 => Ok(Kind::Map),
            5 => Ok(Kind::Field),
            6 => Ok(Kind::Book),
            _ => Err(UnknownKind),
        }
    }
}
