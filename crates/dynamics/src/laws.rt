// What a step keeps, for every gas and every source.
ghost use Rattle.dynamics.specs.Balance.{EachStepKeeps, StepsKeep, MovesDecide};

/// A step keeps the particles and the balance of momentum, walls and fan, and moves each particle to the neighbour by its channel.
pub fn step_keeps() -> u8
    ensures { EachStepKeeps }
{
    0
}

/// So do k steps.
pub fn steps_keep() -> u8
    ensures { StepsKeep }
{
    0
}

/// One field alone comes of particles that move so.
pub fn moves_decide() -> u8
    ensures { MovesDecide }
{
    0
}
