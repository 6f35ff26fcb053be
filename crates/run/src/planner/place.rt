// Where a run of a plan is.

ghost use Rattle.std.specs.Prelude.{◌<◌};
ghost use Rattle.run.specs.Agrees.{Ends};

// The repetition and the frame that a run is in, and the index of the row that comes next.
#[derive(Clone, Copy)]
pub(crate) struct Place {
    pub(crate) repetition: u32,
    pub(crate) frame: u32,
    pub(crate) row: usize,
}

impl Place {
    // A run begins at frame 0 of repetition 0.
    pub(crate) const START: Place = Place {
        repetition: 0,
        frame: 0,
        row: 0,
    };

    // The place after the frame's end: in the next frame, or after the last in the next repetition.
    pub(crate) fn after_frame(self, frames: u32) -> Place
        requires { self.repetition < 1000000 }
        ensures { Ends frames self result }
    {
        let frame = self.frame.saturating_add(1);
        if frame < frames {
            Place { frame, ..self }
        } else {
            Place {
                repetition: self.repetition + 1,
                ..Place::START
            }
        }
    }
}
