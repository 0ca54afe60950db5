// The plain types that the definitions and the code share: a request, its answer, and check's totals.
// Holds no function. What the fields mean is said in specs/, in document 01's words.
#![tactic(auto)]

// What a request answers. The meaning of each number is in specs/Answers.antt. From flush_from up to flush_to are the bytes to flush.
#[repr(C)]
#[derive(Clone, Copy)]
pub struct Answer {
    pub answer: u64,
    pub place: u64,
    pub fault: u64,
    pub stores: u64,
    pub flush_from: u64,
    pub flush_to: u64,
}

// The answers of document 01, by name.
impl Answer {
    pub const DONE: u64 = 0;

    pub const NOT_A_POOL: u64 = 1;

    pub const NOT_SOUND: u64 = 2;

    pub const UNSETTLED: u64 = 3;

    pub const SIZE_ZERO: u64 = 4;

    pub const NO_ROOM: u64 = 5;

    pub const NO_CLUMP: u64 = 6;

    pub const WRONG_STATE: u64 = 7;

    pub const LIST_FULL: u64 = 8;

    pub const LIST_EMPTY: u64 = 9;

    pub const BAD_TARGET: u64 = 10;

    pub const CUT: u64 = 11;
}

// Check's byte totals: the sum of nbytes over the clumps in each state.
#[repr(C)]
#[derive(Clone, Copy)]
pub struct Totals {
    pub free: u64,
    pub reserved: u64,
    pub activating: u64,
    pub active: u64,
    pub freeing: u64,
}

// The eleven requests, each with the numbers asked. An offset is that of a body.
#[derive(Clone, Copy)]
pub enum Request {
    Create,
    Reserve {
        size: u64,
    },
    ReserveUncleared {
        size: u64,
    },
    Grow {
        offset: u64,
        size: u64,
    },
    Onactive {
        offset: u64,
        target: u64,
        value: u64,
    },
    Onfree {
        offset: u64,
        target: u64,
        value: u64,
    },
    Withdraw {
        offset: u64,
    },
    Activate {
        offset: u64,
    },
    Free {
        offset: u64,
    },
    Check,
    Recover,
}
