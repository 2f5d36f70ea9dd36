// What stands on the wire at levels 4 and 2: the seven telegrams of SUBSET-057 5.2, with their levels, commands,
// layouts and fields. No phase, no time, no table. The definitions are in specs/, one file for each section of the
// paper: also those of the writers and of the check, whose code is in the crates writers and checking.
#![tactic(auto)]

mod commands;
mod ends;
mod fields;
mod layout;
mod levels;
mod parts;
mod values;

pub use commands::{
    ACKNOWLEDGEMENT, AUTHENTICATION, CONFIRM, DISCONNECT, IDLE, REQUEST, is_data, is_known, kind_of,
};
pub use ends::{HIGHEST_ADDRESS, in_range, receiving_bytes, sending_bytes};
pub use fields::{
    authentication_number, command_low, disconnect_reason, disconnect_type, idle_time,
    kind_of_telegram, random_number, version_x, version_y,
};
pub use layout::{LONGEST, length_suits, most_net, on_bus};
pub use levels::{added_number, level_of, top_bits, word_length, word_of};
pub use parts::{net_data, net_part};
pub use values::{good_dual_bus, good_idle, good_type, listed_reason};

// One end of a connection, by the numbers that its writers and its check take from the caller and never from a frame.
// The level is a number and no enum, since `End` is public and takes any: what is neither 4 nor 2 is refused, with 1.
#[derive(Clone, Copy, Debug, PartialEq, Eq)]
pub struct End {
    pub own: u32,
    pub partner: u32,
    pub partner_sap: u32,
    pub local_sap: u32,
    pub level: u32,
}

// What a command's low six bits name.
#[derive(Clone, Copy, Debug, PartialEq, Eq)]
pub enum Kind {
    Request,
    Confirm,
    Authentication,
    Acknowledgement,
    Disconnect,
    Idle,
    Data,
    Unknown,
}

// What a writer did: answer 0 and the telegram's length, or a refusal and 0.
#[repr(C)]
#[derive(Clone, Copy, Debug, PartialEq, Eq)]
pub struct Written {
    pub answer: u32,
    pub length: u32,
}

// Why a call is refused. `as u32` gives the number that the caller is answered; 0 is no refusal.
#[derive(Clone, Copy, Debug, PartialEq, Eq)]
pub enum Refusal {
    OutOfRange = 1,
    NoRecord = 2,
    WrongPhase = 3,
    NoRoom = 4,
    BadValue = 5,
    BadTelegram = 6,
    TimeBackwards = 7,
    Ended = 8,
}

// The clauses of the check, in their order.
#[derive(Clone, Copy, Debug, PartialEq, Eq)]
pub enum Clause {
    Level,
    Command,
    Length,
    Number,
    Fields,
    Word,
}

// Why a telegram does not pass: the first clause that fails, or that it is not looked at, by the number of a refusal.
// Any number may stand there: `answer_number` (checking) tells each as it is.
#[derive(Clone, Copy, Debug, PartialEq, Eq)]
pub enum Unfit {
    Failed(Clause),
    Refused(u32),
}

// What the check found.
pub type Check = Result<(), Unfit>;

// Where the net data of a telegram lie.
#[repr(C)]
#[derive(Clone, Copy, Debug, Default, PartialEq, Eq)]
pub struct Part {
    pub start: u32,
    pub count: u32,
}
