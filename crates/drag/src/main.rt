// The drag of a plate: it prints the step count, what a plate across the stream took up, and the particles.
#![tactic(auto)]

mod bars;
mod lines;
mod plate;

use plate::measure;

fn run(rt: &HostRuntime) -> anyhow::Result<()> {
    match measure() {
        Ok(drag) => rt.print(drag)?,
        Err(fault) => rt.println(fault)?,
    }
    Ok(())
}

fn main(rt: HostRuntime) -> anyhow::Result<()> {
    run(&rt)
}
