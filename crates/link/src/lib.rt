// One connection: a record by value and the five steps of the Safe Link Layer over it, at levels 4 and 2. No other
// record, no table.
#![tactic(auto)]

mod act;
mod judge;
mod phases;
mod plain;
mod records;
mod steps;
mod times;

pub use phases::{
    ACKNOWLEDGEMENT_AWAITED, AUTHENTICATION_AWAITED, CLOSED, CONFIRM_AWAITED, FINALLY_CLOSED, OPEN,
};
pub use plain::idle_time_by;
pub use records::{fresh, record_in_range};
pub use steps::{close, open, received, send, tick};

// A connection, by plain numbers.
#[repr(C)]
#[derive(Clone, Copy, Debug, PartialEq, Eq)]
pub struct Record {
    pub partner: u32,
    pub partner_sap: u32,
    pub local_sap: u32,
    pub level: u32,
    pub phase: u32,
    // the number of the next telegram sent, and of the next one taken
    pub sending: u32,
    pub expected: u32,
    // the idle time that we declared, and the partner's, which we watch
    pub declared: u32,
    pub watched: u32,
    // when it last sent, and when it last took a telegram
    pub sent_at: u64,
    pub taken_at: u64,
}

// What happened, for the layer above. Where the net data of data lie is told by two numbers, as the theorems read them,
// and a reason by the number that the layer above may have given.
#[derive(Clone, Copy, Debug, PartialEq, Eq)]
pub enum Event {
    Nothing,
    Opened,
    Data {
        command: u32,
        start: u32,
        count: u32,
    },
    Closed {
        reason: u32,
        last: bool,
    },
}

// The answer's number, and which telegram was written (0 none, 1 request, 2 confirm, 3 authentication, 4
// acknowledgement, 5 disconnect, 6 idle, 7 data) with its length.
#[repr(C)]
#[derive(Clone, Copy, Debug, Default, PartialEq, Eq)]
pub struct Answer {
    pub number: u32,
    pub telegram: u32,
    pub length: u32,
}

// What a step leaves.
#[derive(Clone, Copy, Debug, PartialEq, Eq)]
pub struct Step {
    pub record: Record,
    pub answer: Answer,
    pub event: Event,
}

// An event as plain numbers: 0 nothing, 1 opened, 2 data, 3 closed; unused parts are 0.
#[repr(C)]
#[derive(Clone, Copy, Debug, Default, PartialEq, Eq)]
pub struct Happened {
    pub event: u32,
    pub command: u32,
    pub start: u32,
    pub count: u32,
    pub reason: u32,
    pub last: u32,
}

// A step as plain numbers.
#[repr(C)]
#[derive(Clone, Copy, Debug, PartialEq, Eq)]
pub struct Stepped {
    pub record: Record,
    pub answer: Answer,
    pub happened: Happened,
}

// What a received telegram or a tick asks for.
#[derive(Clone, Copy, Debug, PartialEq, Eq)]
pub enum Verdict {
    Nothing,
    Confirm,
    Authenticate,
    Acknowledge,
    Open,
    Data,
    Idle,
    SendIdle,
    Disconnected,
    Close { reason: u32, last: bool },
}
