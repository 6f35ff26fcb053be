// Why no planner is prepared: a fault of a sheet or a refusal of the planner, or a want of memory.

ghost use Rattle.std.specs.Prelude.{◌≡◌};
ghost use Rattle.prepare.specs.Faults.{notice_of, sheet_number};
ghost use Rattle.prepare.specs.declared.fault.PrepareError.TheVariants.{Fault, Memory};
ghost use Rattle.prepare.specs.declared.fault.PrepareFault.TheVariants.{InPlanner, InSheet};

use run::Refusal;
use sheets::{Notice, SheetFault};
use std::alloc::AllocError;

// One of the two sheets, by the number that a refusal names it by.
#[derive(Clone, Copy, Debug, PartialEq, Eq)]
pub enum Sheet {
    Ranges = 1,
    Lists = 2,
}

impl Sheet {
    // The number by which a refusal names the sheet.
    pub fn number(self) -> u32
        ensures { result ≡ sheet_number self }
    {
        self as u32
    }
}

#[derive(Clone, Copy, Debug, PartialEq, Eq)]
pub enum PrepareFault {
    InSheet { sheet: Sheet, fault: SheetFault },
    InPlanner(Refusal),
}

// By hand, as the other three of this file, so that the proofs know which fault `?` makes.
impl From<(Sheet, SheetFault)> for PrepareFault {
    ghost from_gives = { λ e r. r ≡ InSheet e.0 e.1 };

    fn from(placed: (Sheet, SheetFault)) -> PrepareFault {
        let (sheet, fault) = placed;
        PrepareFault::InSheet { sheet, fault }
    }
}

impl From<Refusal> for PrepareFault {
    ghost from_gives = { λ e r. r ≡ InPlanner e };

    fn from(refusal: Refusal) -> PrepareFault {
        PrepareFault::InPlanner(refusal)
    }
}

impl PrepareFault {
    // The fault as it is reported. A refusal of the planner has its place as the line.
    pub fn notice(self) -> Notice
        ensures { result ≡ notice_of self }
    {
        match self {
            PrepareFault::InSheet { sheet, fault } => Notice {
                number: fault.number(),
                sheet: sheet.number(),
                line: fault.line(),
                field: fault.field(),
            },
            PrepareFault::InPlanner(refusal) => Notice {
                number: refusal.number(),
                sheet: 0,
                line: refusal.place(),
                field: 0,
            },
        }
    }
}

// Why preparing gives no planner: a fault, which is reported, or a want of memory.
#[derive(Clone, Copy, Debug, PartialEq, Eq)]
pub enum PrepareError {
    Fault(PrepareFault),
    Memory(AllocError),
}

impl From<PrepareFault> for PrepareError {
    ghost from_gives = { λ e r. r ≡ Fault e };

    fn from(fault: PrepareFault) -> PrepareError {
        PrepareError::Fault(fault)
    }
}

impl From<AllocError> for PrepareError {
    ghost from_gives = { λ e r. r ≡ Memory e };

    fn from(wanting: AllocError) -> PrepareError {
        PrepareError::Memory(wanting)
    }
}
