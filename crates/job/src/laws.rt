// What holds of all payloads, as a theorem.
ghost use Rattle.job.specs.Keeps.{FaultlessIfKept};

/// No fault is found in payloads exactly if they keep the rules.
pub fn faultless_if_kept() -> u8
    ensures { FaultlessIfKept }
{
    0
}
