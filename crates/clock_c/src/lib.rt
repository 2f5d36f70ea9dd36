// The local clock for the card's C firmware: a message from its bytes, a message for the clock where it stands, and the
// two questions. include/ujamniq.h declares what stands here, for the people who call it.
#![tactic(auto)]

mod exported;

pub use exported::{
    uj_clock_factor, uj_clock_message, uj_clock_new, uj_clock_read, uj_clock_reference_time,
};
