// Why a sheet is refused, and where: a fault of a field or a line inside one of the sheet.

ghost use Rattle.std.specs.Prelude.{◌≡◌};
ghost use Rattle.sheets.specs.Reads.{field_refused, sheet_refused};
ghost use Rattle.sheets.specs.declared.fault.SheetFault.TheVariants.{AtField};

use books::EntryFault;

// What is wrong with a line or one of its fields.
#[derive(Clone, Copy, Debug, PartialEq, Eq)]
pub enum FieldFault {
    UnknownWord { line: u32 },
    FieldCount { line: u32 },
    NameRefused { line: u32 },
    Unreadable { line: u32, field: u32 },
    Entry { line: u32, fault: EntryFault },
}

// What a fault tells, a match for each part, as the rules write them for those who print it: code matches on
// the cases. Each part is promised by itself.
impl FieldFault {
    // The number of the question that got a no.
    pub fn number(self) -> u32
        ensures { result ≡ (field_refused self).number }
    {
        match self {
            FieldFault::UnknownWord { .. } => 13,
            FieldFault::FieldCount { .. } => 14,
            FieldFault::NameRefused { .. } => 15,
            FieldFault::Unreadable { .. } => 16,
            FieldFault::Entry { fault, .. } => fault.number(),
        }
    }

    // The line at fault.
    pub fn line(self) -> u32
        ensures { result ≡ (field_refused self).line }
    {
        match self {
            FieldFault::UnknownWord { line }
            | FieldFault::FieldCount { line }
            | FieldFault::NameRefused { line }
            | FieldFault::Unreadable { line, .. }
            | FieldFault::Entry { line, .. } => line,
        }
    }

    // The field at fault, or 0 where it is the line as a whole.
    pub fn field(self) -> u32
        ensures { result ≡ (field_refused self).field }
    {
        match self {
            FieldFault::UnknownWord { .. } => 1,
            FieldFault::FieldCount { .. } => 0,
            FieldFault::NameRefused { .. } => 2,
            FieldFault::Unreadable { field, .. } => field,
            FieldFault::Entry { fault, .. } => fault.field(),
        }
    }
}

// What is wrong with a sheet: as a whole, or at a field.
#[derive(Clone, Copy, Debug, PartialEq, Eq)]
pub enum SheetFault {
    TooLong,
    LineUnended { line: u32 },
    AtField(FieldFault),
}

// By hand, so that the proofs know which fault `?` makes.
impl From<FieldFault> for SheetFault {
    ghost from_gives = { λ e r. r ≡ AtField e };

    fn from(fault: FieldFault) -> SheetFault {
        SheetFault::AtField(fault)
    }
}

// Told in the same three parts as the fault of a field, which has its own where it is one.
impl SheetFault {
    // The number of the question that got a no.
    pub fn number(self) -> u32
        ensures { result ≡ (sheet_refused self).number }
    {
        match self {
            SheetFault::TooLong | SheetFault::LineUnended { .. } => 12,
            SheetFault::AtField(fault) => fault.number(),
        }
    }

    // The line at fault, or 0 where it is the sheet as a whole.
    pub fn line(self) -> u32
        ensures { result ≡ (sheet_refused self).line }
    {
        match self {
            SheetFault::TooLong => 0,
            SheetFault::LineUnended { line } => line,
            SheetFault::AtField(fault) => fault.line(),
        }
    }

    // The field at fault, or 0 where it is none.
    pub fn field(self) -> u32
        ensures { result ≡ (sheet_refused self).field }
    {
        match self {
            SheetFault::TooLong | SheetFault::LineUnended { .. } => 0,
            SheetFault::AtField(fault) => fault.field(),
        }
    }
}
