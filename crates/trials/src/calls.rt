// The lists of calls.

use run::Call;

// Nothing is allowed, so a plan that gets as far as the periods is refused.
pub const BARRED: [Call; 12] = [
    Call::Next,
    Call::Plan { ceiling: 100 },
    Call::Charge {
        task: 1,
        cost: 1,
        deadline: 3,
    },
    Call::Plan { ceiling: 100 },
    Call::Charge {
        task: 0,
        cost: 1,
        deadline: 3,
    },
    Call::Charge {
        task: 5,
        cost: 1,
        deadline: 3,
    },
    Call::Plan { ceiling: 1_000_001 },
    Call::Plan { ceiling: 1_000_000 },
    Call::Next,
    Call::Rewind,
    Call::Period { task: 0 },
    Call::RowAt { index: 0 },
];

// The count is no number from 1 to 16.
pub const OUT_OF_COUNT: [Call; 5] = [
    Call::Charge {
        task: 0,
        cost: 1,
        deadline: 3,
    },
    Call::Charge {
        task: 16,
        cost: 1,
        deadline: 3,
    },
    Call::Plan { ceiling: 0 },
    Call::Plan { ceiling: 100 },
    Call::Next,
];

// The least hyperperiod is 3. Task 1 leaves no frame size but 1 while its deadline is 1, and 3 after.
pub const ODD_ONES: [Call; 33] = [
    Call::Rewind,
    Call::Charge {
        task: 0,
        cost: 2,
        deadline: 3,
    },
    Call::Plan { ceiling: 100 },
    Call::Charge {
        task: 1,
        cost: 1,
        deadline: 1,
    },
    Call::Charge {
        task: 5,
        cost: 1,
        deadline: 1,
    },
    Call::Charge {
        task: 1,
        cost: 200_001,
        deadline: 1,
    },
    Call::Charge {
        task: 1,
        cost: 1,
        deadline: 0,
    },
    Call::Plan { ceiling: 2 },
    Call::Plan { ceiling: 100 },
    Call::Next,
    Call::Next,
    Call::Next,
    Call::Next,
    Call::Rewind,
    Call::Next,
    Call::Period { task: 0 },
    Call::Period { task: 2 },
    Call::RowAt { index: 2 },
    Call::RowAt { index: 3 },
    Call::Next,
    Call::Next,
    Call::Next,
    Call::Next,
    Call::Next,
    Call::Next,
    Call::Charge {
        task: 1,
        cost: 1,
        deadline: 3,
    },
    Call::Next,
    Call::Period { task: 0 },
    Call::RowAt { index: 0 },
    Call::Plan { ceiling: 3 },
    Call::Next,
    Call::Next,
    Call::Next,
];
