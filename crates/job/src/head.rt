// The head of a job.
ghost use Rattle.std.specs.Prelude.{◌≡◌, ℕ, ◌≢◌, length, MatchOption};
ghost use Rattle.job.specs.Heads.{head_of, head_length};

/// What a head says.
// Kinds are the bytes as they stand: which kinds there are is for gases and sources to say.
#[derive(Clone, Copy, Debug, PartialEq)]
pub struct Head {
    pub gas: u8,
    pub twist: u8,
    pub width: u32,
    pub height: u32,
    pub period: u32,
    pub steps: u32,
    pub mark: u32,
}

/// The head that a payload of sixteen bytes is.
pub fn read_head(payload: &[u8]) -> Option<Head>
    ensures { MatchOption result (length payload.now ≢ head_length) (λ h. (length payload.now ≡ head_length) × (h ≡ head_of payload.now)) }
{
    match payload {
        [
            gas,
            twist,
            w0,
            w1,
            h0,
            h1,
            p0,
            p1,
            s0,
            s1,
            s2,
            s3,
            m0,
            m1,
            m2,
            m3,
        ] => Some(Head {
            gas: *gas,
            twist: *twist,
            width: u32::from_le_bytes([*w0, *w1, 0, 0]),
            height: u32::from_le_bytes([*h0, *h1, 0, 0]),
            period: u32::from_le_bytes([*p0, *p1, 0, 0]),
            steps: u32::from_le_bytes([*s0, *s1, *s2, *s3]),
            mark: u32::from_le_bytes([*m0, *m1, *m2, *m3]),
        }),
        _ => None,
    }
}
