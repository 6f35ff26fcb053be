// What a plan is made of: the figures of a task, its jobs, and the rows of the table.

// The figures that a task is planned with.
#[derive(Clone, Copy, Debug, Default, PartialEq, Eq)]
pub struct Figures {
    pub cost: u32,
    pub deadline: u32,
}

// A job of a task, with its window and what it costs.
#[derive(Clone, Copy, Debug, PartialEq, Eq)]
pub struct Job {
    pub task: u32,
    pub job: u32,
    pub release: u32,
    pub end: u32,
    pub cost: u32,
}

// A row of the table: in this frame the job of the task has so many ticks.
#[derive(Clone, Copy, Debug, PartialEq, Eq)]
pub struct Row {
    pub frame: u32,
    pub task: u32,
    pub job: u32,
    pub length: u32,
}
