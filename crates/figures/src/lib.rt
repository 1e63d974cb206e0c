// Small worked figures, as one theorem over the definitions and as tests of the code.
#![tactic(auto)]

ghost use Rattle.figures.specs.Figures.{Figures};

#[cfg(test)]
mod files;
#[cfg(test)]
mod gases;

/// The figures hold of the definitions that the contracts use.
pub fn figures_hold() -> u8
    ensures { Figures }
{
    0
}
