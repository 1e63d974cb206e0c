// The lines that the program prints: the step count, the plate's account along the tunnel and across, the particles.
ghost use Rattle.std.specs.Prelude.{Some};
ghost use Rattle.drag.specs.Lines.{drag_lines};

use super::plate::Drag;
use std::fmt;

impl fmt::Display for Drag {
    ghost output = { λ drag. Some (drag_lines drag.steps drag.plate.along drag.plate.across drag.particles) };

    fn fmt<W: fmt::Write>(&self, f: &mut fmt::Formatter<W>) -> fmt::Result {
        let steps = self.steps;
        let along = self.plate.along;
        let across = self.plate.across;
        let particles = self.particles;
        write!(
            f,
            "steps {steps}\nplate {along} {across}\nparticles {particles}\n"
        )
    }
}
