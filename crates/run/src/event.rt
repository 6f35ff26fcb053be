// What a run consists of.

ghost use Rattle.std.specs.Prelude.{◌≡◌};
ghost use Rattle.run.specs.Events.{told};

// A slice of a frame that a job has, or the end of a frame, in a repetition of the table.
#[derive(Clone, Copy, Debug, PartialEq, Eq)]
pub enum Event {
    Slice {
        repetition: u32,
        frame: u32,
        task: u32,
        job: u32,
        length: u32,
    },
    FrameEnd {
        repetition: u32,
        frame: u32,
    },
}

// What an event tells, a match for each part: one match for all of them would hand out a struct of
// the same six fields.
impl Event {
    // 1 for a slice, 2 for a frame's end: numbers, since the rules tell the kind by them.
    pub fn kind(self) -> u32
        ensures { result ≡ (told self).kind }
    {
        match self {
            Event::Slice { .. } => 1,
            Event::FrameEnd { .. } => 2,
        }
    }

    pub fn repetition(self) -> u32
        ensures { result ≡ (told self).repetition }
    {
        match self {
            Event::Slice { repetition, .. } | Event::FrameEnd { repetition, .. } => repetition,
        }
    }

    pub fn frame(self) -> u32
        ensures { result ≡ (told self).frame }
    {
        match self {
            Event::Slice { frame, .. } | Event::FrameEnd { frame, .. } => frame,
        }
    }

    // The task of a slice; 0 for a frame's end, as of job and length.
    pub fn task(self) -> u32
        ensures { result ≡ (told self).task }
    {
        match self {
            Event::Slice { task, .. } => task,
            Event::FrameEnd { .. } => 0,
        }
    }

    pub fn job(self) -> u32
        ensures { result ≡ (told self).job }
    {
        match self {
            Event::Slice { job, .. } => job,
            Event::FrameEnd { .. } => 0,
        }
    }

    pub fn length(self) -> u32
        ensures { result ≡ (told self).length }
    {
        match self {
            Event::Slice { length, .. } => length,
            Event::FrameEnd { .. } => 0,
        }
    }
}
