// The clock for C and for Rattle: the one function that takes it where it stands, and what is asked of it.
// include/ujamniq.h declares them, for the people who call them; clock_export hands them to C.
ghost use Rattle.std.specs.Prelude.{◌≡◌};
ghost use Rattle.clock.specs.Clocks.{new_clock};
ghost use Rattle.clock.specs.Events.{number_of};
ghost use Rattle.clock.specs.Updates.{heard_by};
ghost use Rattle.clock.specs.Asking.{factor_at, time_at};
ghost use Rattle.clock.specs.Reading.{read_by};
ghost use Rattle.clock.specs.Plain.{plain_reading, plain_factor, plain_time};

use clock::{Clock, LocalTime, Message, PlainFactor, PlainReading, PlainTime};

// A clock that has received no message.
pub fn uj_clock_new() -> Clock
    ensures { result ≡ new_clock }
{
    clock::new_clock()
}

// A message from its bytes.
pub fn uj_clock_read(bytes: &[u8]) -> PlainReading
    ensures { result ≡ plain_reading (read_by bytes.now) }
{
    clock::read_message(bytes).into()
}

// A message, for the lent clock. The answer is the number of the event.
pub fn uj_clock_message(clock: &mut Clock, message: Message, local: LocalTime) -> u32
    ensures { (result ≡ number_of (heard_by clock.old message local).event) × (clock.new ≡ (heard_by clock.old message local).clock) }
{
    let step = clock::heard(*clock, message, local);
    *clock = step.clock;
    step.event.into()
}

// The factor of a lent clock, which is read and left.
pub fn uj_clock_factor(clock: &Clock, local: LocalTime) -> PlainFactor
    ensures { result ≡ plain_factor (factor_at clock.now local) }
{
    clock::factor(*clock, local).into()
}

// The Reference Time by a lent clock, likewise.
pub fn uj_clock_reference_time(clock: &Clock, local: LocalTime) -> PlainTime
    ensures { result ≡ plain_time (time_at clock.now local) }
{
    clock::reference_time(*clock, local).into()
}
