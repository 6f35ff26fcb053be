// Large sheets.

#[derive(Clone, Copy)]
pub(crate) struct Sheets {
    pub(crate) name: &'static str,
    pub(crate) ranges: &'static [u8],
    pub(crate) lists: &'static [u8],
}

pub(crate) const SHEETS: [Sheets; 3] = [
    Sheets {
        name: "sheets of 1,019 jobs in 256 frames",
        ranges: b"range,task00xxxxxxxxxx,13860,13860,850,13860
range,task01xxxxxxxxxx,13860,13860,850,13860
range,task02xxxxxxxxxx,13860,13860,850,13860
range,task03xxxxxxxxxx,13860,13860,850,13860
range,task04xxxxxxxxxx,13860,13860,850,13860
range,task05xxxxxxxxxx,13860,13860,850,13860
range,task06xxxxxxxxxx,13860,13860,850,13860
range,task07xxxxxxxxxx,13860,13860,850,3465
",
        lists: b"list,list00xxxxxxxxxx,850,13860,13860
list,list01xxxxxxxxxx,850,13860,13860
list,list02xxxxxxxxxx,850,13860,13860
list,list03xxxxxxxxxx,850,13860,13860
list,list04xxxxxxxxxx,850,13860,13860
list,list05xxxxxxxxxx,850,13860,13860
list,list06xxxxxxxxxx,400,7920,7920
list,list07xxxxxxxxxx,2000,80640,80640
",
    },
    Sheets {
        name: "sheets of 4,096 commas",
        ranges: &[b','; 4096],
        lists: &[b','; 4096],
    },
    Sheets {
        name: "sheets of 4,096 newlines",
        ranges: &[b'\n'; 4096],
        lists: &[b'\n'; 4096],
    },
];
