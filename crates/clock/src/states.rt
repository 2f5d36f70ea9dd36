// The clock, its states (7.4.1.7.2), and what a message leaves of it. A state that has no name here counts as isolated,
// so that a zeroed clock is never a new one.
ghost use Rattle.std.specs.Prelude.{◌≡◌};
ghost use Rattle.clock.specs.Clocks.{new_clock, kept_by, paired_by, begun_anew, forgotten, isolated_by, synchronised_at, next_period, counting_period, period_after, in_period, resynchronised_at, counted_of};

use crate::checks::{PAIRS, TIME_FOR_LONG_TERM_DRIFT_CHECK};
use crate::means::{mean, shifted};
use crate::{Clock, Last, LocalTime, Message, Pair, Period, RefTime};

pub const UNSYNCHRONISED: u32 = 1;

pub const SYNCHRONISED: u32 = 2;

pub const ISOLATED: u32 = 3;

// A clock that has received no message.
#[tactic(auto, unfolding(crate::specs::Clocks::new_clock))]
pub fn new_clock() -> Clock
    ensures { result ≡ new_clock }
{
    let none = Pair {
        reference: RefTime(0),
        local: LocalTime(0),
    };
    Clock {
        pairs: [none; 16],
        count: 0,
        state: UNSYNCHRONISED,
        last: Last {
            received: 0,
            number: 0,
            local: LocalTime(0),
        },
        resynchronised: LocalTime(0),
        period: Period {
            begun: LocalTime(0),
            factor: 0,
            messages: 0,
        },
    }
}

// One more pair counts, and at most sixteen.
#[tactic(auto, using(ground::specs::Choice::tests), unfolding(ground::specs::Choice::pick, crate::specs::Clocks::counted_of))]
fn counted(count: u32) -> u32
    ensures { result ≡ counted_of count }
{
    count.min(PAIRS - 1) + 1
}

// The message is kept for the next one, 7.2.1.13.
#[tactic(auto, unfolding(crate::specs::Clocks::kept_by))]
pub(crate) fn kept(c: Clock, message: Message, local: LocalTime) -> Clock
    ensures { result ≡ kept_by c message local }
{
    let last = Last {
        received: 1,
        number: message.number,
        local,
    };
    Clock { last, ..c }
}

// The pairs begin anew: none counts.
#[tactic(auto, unfolding(crate::specs::Clocks::begun_anew))]
pub(crate) fn begun_anew(c: Clock) -> Clock
    ensures { result ≡ begun_anew c }
{
    Clock { count: 0, ..c }
}

// As before the first message.
#[tactic(auto, unfolding(crate::specs::Clocks::forgotten))]
pub(crate) fn forgetting(c: Clock) -> Clock
    ensures { result ≡ forgotten c }
{
    let last = Last {
        received: 0,
        ..c.last
    };
    Clock {
        count: 0,
        last,
        ..c
    }
}

// Isolated, 7.4.1.7.2.3: no pair counts.
#[tactic(auto, unfolding(crate::specs::Clocks::isolated_by))]
pub(crate) fn isolated(c: Clock) -> Clock
    ensures { result ≡ isolated_by c }
{
    Clock {
        count: 0,
        state: ISOLATED,
        ..c
    }
}

// One pair more.
#[tactic(auto, unfolding(crate::specs::Clocks::paired_by))]
pub(crate) fn paired(c: Clock, new: Pair) -> Clock
    ensures { result ≡ paired_by c new }
{
    let pairs = shifted(c.pairs, new);
    let count = counted(c.count);
    Clock { pairs, count, ..c }
}

// Synchronised, with the first period from this moment on; the message that came now is its first.
#[tactic(auto, unfolding(crate::specs::Clocks::synchronised_at))]
pub(crate) fn synchronised(c: Clock, local: LocalTime) -> Clock
    ensures { result ≡ synchronised_at c local }
{
    let period = Period {
        begun: local,
        factor: mean(c.pairs),
        messages: 1,
    };
    Clock {
        state: SYNCHRONISED,
        resynchronised: local,
        period,
        ..c
    }
}

// The period that follows one that is over, with the message that shows it.
#[tactic(auto, unfolding(crate::specs::Clocks::next_period))]
fn next_period(period: Period, factor: u32) -> Period
    ensures { result ≡ next_period period factor }
{
    let begun = period.begun.0.wrapping_add(TIME_FOR_LONG_TERM_DRIFT_CHECK);
    Period {
        begun: LocalTime(begun),
        factor,
        messages: 1,
    }
}

// The period with one message more. The count ends at the greatest number.
#[tactic(auto, using(ground::specs::Choice::tests), unfolding(ground::specs::Choice::pick, crate::specs::Clocks::counting_period))]
fn counting(period: Period) -> Period
    ensures { result ≡ counting_period period }
{
    let messages = period.messages.saturating_add(1);
    Period { messages, ..period }
}

// The period after a message: the next one where it is over, else the same.
#[tactic(auto, unfolding(ground::specs::Choice::pick, crate::specs::Clocks::period_after))]
fn period_after(period: Period, over: bool, factor: u32) -> Period
    ensures { result ≡ period_after period over factor }
{
    if over {
        next_period(period, factor)
    } else {
        counting(period)
    }
}

// The period goes on, or the next one begins.
#[tactic(auto, unfolding(crate::specs::Clocks::in_period))]
pub(crate) fn in_period(c: Clock, over: bool, factor: u32) -> Clock
    ensures { result ≡ in_period c over factor }
{
    let period = period_after(c.period, over, factor);
    Clock { period, ..c }
}

// Resynchronised at this moment.
#[tactic(auto, unfolding(crate::specs::Clocks::resynchronised_at))]
pub(crate) fn resynchronised(c: Clock, local: LocalTime) -> Clock
    ensures { result ≡ resynchronised_at c local }
{
    Clock {
        resynchronised: local,
        ..c
    }
}
