// One node of the bus: the five calls over a lent table of connections. A record is found by what the telegram was sent
// under, never by its place, and a call changes one record or none.
#![tactic(auto)]

mod accepted;
mod calls;
mod heads;
mod matching;
mod outcomes;
mod refusals;

pub use accepted::{MOST_RECORDS, table_accepted};
pub use calls::{close, open, received, send, tick};
pub use heads::new_head;
use link::{Answer, Event, Happened};
pub use matching::{first_match, route_by};
pub use outcomes::net_data;

// The node's own bus address and the latest time seen, given to each call and handed back by it.
#[repr(C)]
#[derive(Clone, Copy, Debug, PartialEq, Eq)]
pub struct Head {
    pub own: u32,
    pub latest: u64,
}

// What a telegram was sent under, as the frame has it: the sender's address, our SAP, the sender's SAP.
#[derive(Clone, Copy, Debug, PartialEq, Eq)]
pub struct Route {
    pub sender: u32,
    pub destination_sap: u32,
    pub source_sap: u32,
}

// What a call leaves beside table and buffer.
#[derive(Clone, Copy, Debug, PartialEq, Eq)]
pub struct Outcome {
    pub head: Head,
    pub answer: Answer,
    pub event: Event,
}

// The same as plain numbers.
#[repr(C)]
#[derive(Clone, Copy, Debug, PartialEq, Eq)]
pub struct PlainOutcome {
    pub head: Head,
    pub answer: Answer,
    pub happened: Happened,
}
