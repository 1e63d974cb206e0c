// A plate in a tunnel of 64 columns and 32 rows, with a fan that keeps the gas going.
ghost use Rattle.std.specs.Prelude.{◌≡◌, IfOk};

use super::bars::{fill, paint_bar};
use book::Account;
use faults::CallFault;
use gas::field_totals;
use hexagonal::HexagonalGas;
use run::Run;
use twist::Register;

/// What is told of a plate: after how many steps, what it took up, and how many particles there are.
#[derive(Clone, Copy)]
pub(crate) struct Drag {
    pub(crate) steps: u32,
    pub(crate) plate: Account,
    pub(crate) particles: u32,
}

/// A fan across column 0 acts in every second step; obstacle 1 is a plate in the lower 16 rows of column 32.
pub(crate) fn measure() -> Result<Drag, CallFault>
    ensures { IfOk result (λ drag. drag.steps ≡ 200) }
{
    let mut map = [0u8; 2048];
    let mut field = [0u8; 2048];
    let mut spare = [0u8; 2048];
    let gas = HexagonalGas::new();
    let mut run = Run::new(gas, Register::new());
    run.blank(64, 32, &mut map, &mut field)?;
    paint_bar(&run, 32, 16, 1, &mut map)?;
    paint_bar(&run, 0, 32, 16, &mut map)?;
    run.fan(2)?;
    fill(&mut field);
    let steps = run.advance(200, &map, &mut field, &mut spare)?;
    let plate = run.account(1)?;
    let particles = field_totals(&gas, &field).particles;
    Ok(Drag {
        steps,
        plate,
        particles,
    })
}
