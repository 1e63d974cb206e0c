// The pushes of a step on the book.
// Lengths are asked for call by call, as in the collision.
ghost use Rattle.std.specs.Prelude.{◌≡◌, ℕ, ◌^◌, ◌≤◌, true, length, pos, ◌*ℤ◌, slice_index_or, unsigned_abs};
ghost use Rattle.lattice.specs.Vectors.{times};
ghost use Rattle.book.specs.Accounts.{none, fan_account, pushed};
ghost use Rattle.step.specs.Settling.{Settled, Modest, NoWall};

use book::Book;
use dynamics::Role;
use gas::Gas;
use lattice::Vector;

/// Walls are looked for in so many cells at a time.
const STRETCH: usize = 64;

/// Twice a vector whose numbers are small.
fn twice(vector: Vector) -> Vector
    requires { (unsigned_abs vector.along ≤ 1000000) × (unsigned_abs vector.across ≤ 1000000) }
    ensures { result ≡ times (pos 2) vector }
{
    Vector {
        along: 2 * vector.along,
        across: 2 * vector.across,
    }
}

/// A small number, as often as it is counted.
fn counted(count: u32, number: i64) -> i64
    requires { (count ≤ 16384) × (unsigned_abs number ≤ 2) }
    ensures { result ≡ pos count *ℤ number }
{
    i64::from(count) * number
}

/// Whether no wall stands in these cells.
fn is_clear(walls: &[u8]) -> bool
    ensures { result ≡ true → NoWall walls.now }
{
    // Not `all`, which stops at the first wall and was measured eight times slower: where no test leaves the loop, many are made at once.
    let mut clear = true;
    for byte in walls {
        if let Role::Wall(_) = Role::from(*byte) {
            clear = false;
        }
    }
    clear
}

/// Adds to each obstacle's account twice the momentum of the particles in its cells.
pub fn settle_walls<G: Gas>(gas: &G, map: &[u8], field: &[u8], book: &mut Book)
    requires lengths { (length map.now ≡ length field.now) × (length map.now ≤ 16384) }
    requires modest { Modest book.old.accounts }
    ensures { Settled (G.model gas.now) map.now field.now book.old.accounts book.new.accounts (length map.now) }
{
    // Not by zipped chunks: of what a zip yields a proof knows by its iterator alone, and the accounts are told by the map's places.
    for stretch in 0..map.len().div_ceil(STRETCH) {
        let start = stretch * STRETCH;
        let walls = &map[start..map.len().min(start + STRETCH)];
        if is_clear(walls) {
            continue;
        }
        for (offset, byte) in walls.iter().enumerate() {
            if let Role::Wall(obstacle) = Role::from(*byte) {
                let push = twice(gas.momentum(field[start + offset]));
                book.push(obstacle as usize, push);
            }
        }
    }
}

/// Adds to the fan's account twice the east vector for each particle turned.
pub fn settle_fan<G: Gas>(gas: &G, turned: u32, book: &mut Book)
    requires turned { turned ≤ 16384 }
    requires along { unsigned_abs (slice_index_or book.old.accounts 15 none).along ≤ 2 ^ 61 }
    requires across { unsigned_abs (slice_index_or book.old.accounts 15 none).across ≤ 2 ^ 61 }
    ensures { book.new.accounts ≡ pushed book.old.accounts fan_account (times (pos 2) (times (pos turned) ((G.model gas.now).vector 0))) }
{
    let east = gas.vector(0);
    let along = counted(turned, east.along);
    let across = counted(turned, east.across);
    book.push(16, twice(Vector { along, across }));
}
