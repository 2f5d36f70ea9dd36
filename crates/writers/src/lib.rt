// One writer for each of the seven telegrams of SUBSET-057 5.2, onto a lent buffer. What a telegram is, and what a
// writer does, is said in crates/telegram/specs.
#![tactic(auto)]

mod put;
mod write;

pub use write::{
    authentication_of, connect_allowed, data_allowed, disconnect_allowed, write_acknowledgement,
    write_authentication, write_confirm, write_data, write_disconnect, write_idle, write_request,
};
