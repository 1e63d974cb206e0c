// One record: its header, and the check of its payload.
ghost use Rattle.std.specs.Prelude.{◌≡◌, ℕ, ◌+◌, ◌*◌, ◌^◌, ◌<◌, ◌≤◌, length, drop, MatchOption};
ghost use Rattle.records.specs.Format.{header_of, check_of};

/// How many bytes stand before a payload.
pub const HEADER_LENGTH: usize = 8;

/// The eight bytes that stand before a payload: the record's kind, the payload's length and its check.
// The kind is the byte as it stands: whether it is one is judged after the check.
#[derive(Clone, Copy, Debug, PartialEq)]
pub struct Header {
    pub kind: u8,
    pub length: u32,
    pub check: u32,
}

/// The header at the front, and what lies behind it; none in fewer than eight bytes.
pub fn read_header(bytes: &[u8]) -> Option<(Header, &[u8])>
    ensures { MatchOption result (length bytes.now < 8) (λ p. (8 ≤ length bytes.now) × (p.0 ≡ header_of bytes.now) × (p.1.now ≡ drop 8 bytes.now)) }
{
    match bytes {
        [kind, l0, l1, l2, c0, c1, c2, c3, rest @ ..] => {
            let length = u32::from_le_bytes([*l0, *l1, *l2, 0]);
            let check = u32::from_le_bytes([*c0, *c1, *c2, *c3]);
            Some((
                Header {
                    kind: *kind,
                    length,
                    check,
                },
                rest,
            ))
        }
        _ => None,
    }
}

/// 1 and the sum of (i + 1) × byte i, modulo 2^32.
pub fn check_of(payload: &[u8]) -> u32
    ensures { result ≡ check_of payload.now }
{
    let mut sum: u32 = 1;
    for (i, byte) in payload.iter().enumerate() {
        let weight = ((i & 0xffff_ffff) as u32).wrapping_add(1);
        sum = sum.wrapping_add(weight.wrapping_mul(u32::from(*byte)));
    }
    sum
}
