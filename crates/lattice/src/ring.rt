// A row of columns as a ring.
ghost use Rattle.std.specs.Prelude.{◌≡◌, ℕ, ◌<◌, ◌≤◌, length, slice_index};
ghost use Rattle.lattice.specs.Grids.{onward, backward};

/// Fills a ring: `made` tells each place from the place before it, its own and the next.
/// The two edges stand by themselves, so that no place in the loop between them wraps.
pub fn fill_ring<F: Fn(usize, usize, usize) -> u8>(ring: &mut [u8], made: F)
    requires wide { 2 ≤ length ring.old }
    requires callable { (c : ℕ) → c < length ring.old → F.pre made (backward (length ring.old) c) c (onward (length ring.old) c) }
    ensures long { length ring.new ≡ length ring.old }
    ensures each { (c : ℕ) → c < length ring.old → F.post made (backward (length ring.old) c) c (onward (length ring.old) c) (slice_index ring.new c) }
{
    // The loop counts its places, since the places beside each are what `made` is asked for.
    let last = ring.len() - 1;
    ring[0] = made(last, 0, 1);
    for place in 1..last {
        ring[place] = made(place - 1, place, place + 1);
    }
    ring[last] = made(last - 1, last, 0);
}
