// The program: it reads the first line and a job file from standard input, and prints its answer.
#![tactic(auto)]

use front::{LONGEST_INPUT, answer};
use std::io::Read;

fn run(rt: &HostRuntime) -> anyhow::Result<()> {
    let mut input = Vec::new(rt.alloc());
    rt.stdin().take(LONGEST_INPUT + 1).read_to_end(&mut input)?;
    let line = answer(rt.alloc(), input.as_slice())?;
    rt.print(line)?;
    Ok(())
}

fn main(rt: HostRuntime) -> anyhow::Result<()> {
    run(&rt)
}
