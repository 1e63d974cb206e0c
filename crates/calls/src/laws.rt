// What holds over whole logs of calls, as a theorem.
ghost use Rattle.calls.specs.Law.{LawOverLogs};

/// Whatever calls follow a done `open` or `blank`: particles and balance are kept, run, map and field are the plain tunnel's, and every done
/// mark opens elsewhere into a run that no list of calls can tell from the first.
pub fn law_over_logs() -> u8
    ensures { LawOverLogs }
{
    0
}
