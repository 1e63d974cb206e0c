// Which kind may come next, as a machine in place.
ghost use Rattle.std.specs.Prelude.{◌≡◌};
ghost use Rattle.records.specs.Orders.{answer, moved, begun};

use super::kinds::Kind;

/// From this number on a kind is skipped.
const FIRST_SKIPPED: u8 = 128;

#[derive(Clone, Copy, Debug, PartialEq, Eq, Hash)]
pub enum OrderFault {
    /// The kind is no kind.
    Unknown,
    /// The kind is not next in order.
    NotNext,
}

/// How far the order has come: the kind that has to come next, of those that are not skipped; none behind the end.
#[derive(Clone, Copy, Debug, PartialEq, Eq, Hash)]
pub struct Order {
    next: Option<Kind>,
}

impl Order {
    pub fn new() -> Order
        ensures { result ≡ begun }
    {
        Order {
            next: Some(Kind::Head),
        }
    }

    /// Moves on by a record of the kind of this number, if it may come next; none if it is skipped.
    pub fn accept(&mut self, number: u8) -> Result<Option<Kind>, OrderFault>
        ensures says { result ≡ answer self.old.next number }
        ensures moves { self.new.next ≡ moved self.old.next number }
    {
        if number >= FIRST_SKIPPED {
            return Ok(None);
        }
        let kind = Kind::try_from(number).map_err(|_| OrderFault::Unknown)?;
        self.next = match (self.next, kind) {
            (Some(Kind::Head), Kind::Head) => Some(Kind::Rules),
            (Some(Kind::Rules), Kind::Rules) => Some(Kind::Map),
            (Some(Kind::Map), Kind::Map) => Some(Kind::Field),
            (Some(Kind::Field), Kind::Field) => Some(Kind::Book),
            (Some(Kind::Book), Kind::Book) => Some(Kind::End),
            (Some(Kind::End), Kind::End) => None,
            _ => return Err(OrderFault::NotNext),
        };
        Ok(Some(kind))
    }
}
