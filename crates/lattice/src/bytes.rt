// The first byte that is no number below a limit.
ghost use Rattle.std.specs.Prelude.{◌≡◌, nat_le, position};

/// The place of the first byte that is no number below this limit.
pub fn first_from(bytes: &[u8], limit: usize) -> Option<usize>
    ensures { result ≡ position (λ b. nat_le limit b) bytes.now }
{
    bytes.iter().position(|byte| usize::from(*byte) >= limit)
}
