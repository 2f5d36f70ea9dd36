// The local clock of SUBSET-056: Reference Time on a node without the reference clock, from the Sync and Reference Time
// messages. It knows no telegram and no record. The estimator is the caller's, and each message brings it up to date
// where it stands.
#![tactic(auto)]

mod asking;
mod checks;
mod circle;
mod events;
mod layout;
mod means;
mod plain;
mod states;
mod updates;

pub use asking::{factor, reference_time};
pub use events::{Event, FailedTest};
pub use layout::read_message;
pub use states::{ISOLATED, SYNCHRONISED, UNSYNCHRONISED, new_clock};
pub use updates::heard;

// Local_Clock_Time, 3.4.7.2: the node's own counter of milliseconds.
#[repr(C)]
#[derive(Clone, Copy, Debug, PartialEq, Eq)]
pub struct LocalTime(pub u32);

// Reference Time, 3.4.6.1. Of a local time only `asking::adjusted` makes one.
#[repr(C)]
#[derive(Clone, Copy, Debug, PartialEq, Eq)]
pub struct RefTime(pub u32);

// One moment in both times.
#[repr(C)]
#[derive(Clone, Copy, Debug, PartialEq, Eq)]
pub struct Pair {
    pub reference: RefTime,
    pub local: LocalTime,
}

// A Sync and Reference Time message, 6.3.1.9: its number, and the Reference Time of the one before it.
#[repr(C)]
#[derive(Clone, Copy, Debug, PartialEq, Eq)]
pub struct Message {
    pub number: u32,
    pub reference: RefTime,
}

// The message received last: whether there was one, which 0 denies, its number, and the local time saved at it.
#[repr(C)]
#[derive(Clone, Copy, Debug, PartialEq, Eq)]
pub struct Last {
    pub received: u32,
    pub number: u32,
    pub local: LocalTime,
}

// The period of 7.4.3.6 and 7.4.3.7: where it began, the factor that was valid there, and the messages received in it.
#[repr(C)]
#[derive(Clone, Copy, Debug, PartialEq, Eq)]
pub struct Period {
    pub begun: LocalTime,
    pub factor: u32,
    pub messages: u32,
}

// The estimator: the pairs, newest first, how many of them count, the state, the message received last, the moment of
// the last resynchronisation, the period. C owns it and may fill it with anything: so `state`, `count` and
// `Last::received` are numbers, of which every value has a meaning, and no enum and no bool.
#[repr(C)]
#[derive(Clone, Copy, Debug, PartialEq, Eq)]
pub struct Clock {
    pub pairs: [Pair; 16],
    pub count: u32,
    pub state: u32,
    pub last: Last,
    pub resynchronised: LocalTime,
    pub period: Period,
}

// What a message leaves: the clock, and the event.
#[derive(Clone, Copy, Debug, PartialEq, Eq)]
pub struct Step {
    pub clock: Clock,
    pub event: Event,
}

// Why a run of bytes is no message, by its number: the length is looked at first, then the prefix.
#[derive(Clone, Copy, Debug, PartialEq, Eq)]
pub enum Unreadable {
    NotEleven = 201,
    OtherPrefix = 202,
}

// What was read, the factor asked for and the Reference Time asked for, as plain numbers for C: an answer of 0 and the
// value, or why there is none.
#[repr(C)]
#[derive(Clone, Copy, Debug, PartialEq, Eq)]
pub struct PlainReading {
    pub answer: u32,
    pub message: Message,
}

#[repr(C)]
#[derive(Clone, Copy, Debug, PartialEq, Eq)]
pub struct PlainFactor {
    pub answer: u32,
    pub factor: u32,
}

#[repr(C)]
#[derive(Clone, Copy, Debug, PartialEq, Eq)]
pub struct PlainTime {
    pub answer: u32,
    pub time: RefTime,
}
