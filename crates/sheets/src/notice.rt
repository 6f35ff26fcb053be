// A refusal as it is reported, in numbers, as it is printed: the number of its question, the sheet (1 range,
// 2 list, 0 the planner), and the line and field at fault.
#[derive(Clone, Copy, Debug, PartialEq, Eq)]
pub struct Notice {
    pub number: u32,
    pub sheet: u32,
    pub line: u32,
    pub field: u32,
}
