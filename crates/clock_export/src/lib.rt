// The local clock for C, on plain numbers, byte runs and a clock where it stands. include/ujamniq.h declares what
// stands here, for the people who call it. Each is the function of `clock_c` that has its name, and says what that
// says: a crate is a library or a static library, and Rattle code calls the library's.
#![tactic(auto)]

ghost use Rattle.std.specs.Prelude.{◌≡◌};
ghost use Rattle.clock.specs.Clocks.{new_clock};
ghost use Rattle.clock.specs.Events.{number_of};
ghost use Rattle.clock.specs.Updates.{heard_by};
ghost use Rattle.clock.specs.Asking.{factor_at, time_at};
ghost use Rattle.clock.specs.Reading.{read_by};
ghost use Rattle.clock.specs.Plain.{plain_reading, plain_factor, plain_time};

use clock::{Clock, LocalTime, Message, PlainFactor, PlainReading, PlainTime};

// A clock that has received no message.
#[unsafe(no_mangle)]
pub extern "C" fn uj_clock_new() -> Clock
    ensures { result ≡ new_clock }
{
    clock_c::uj_clock_new()
}

// A message from its bytes.
#[unsafe(no_mangle)]
pub extern "C" fn uj_clock_read(bytes: &[u8]) -> PlainReading
    ensures { result ≡ plain_reading (read_by bytes.now) }
{
    clock_c::uj_clock_read(bytes)
}

// A message, for the lent clock.
#[unsafe(no_mangle)]
pub extern "C" fn uj_clock_message(clock: &mut Clock, message: Message, local: LocalTime) -> u32
    ensures { (result ≡ number_of (heard_by clock.old message local).event) × (clock.new ≡ (heard_by clock.old message local).clock) }
{
    clock_c::uj_clock_message(clock, message, local)
}

// The factor of a lent clock, which is read and left.
#[unsafe(no_mangle)]
pub extern "C" fn uj_clock_factor(clock: &Clock, local: LocalTime) -> PlainFactor
    ensures { result ≡ plain_factor (factor_at clock.now local) }
{
    clock_c::uj_clock_factor(clock, local)
}

// The Reference Time by a lent clock, likewise.
#[unsafe(no_mangle)]
pub extern "C" fn uj_clock_reference_time(clock: &Clock, local: LocalTime) -> PlainTime
    ensures { result ≡ plain_time (time_at clock.now local) }
{
    clock_c::uj_clock_reference_time(clock, local)
}
