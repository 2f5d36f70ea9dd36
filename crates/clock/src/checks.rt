// The tests of 7.4.2.2 and 7.4.3, and of 7.4.1.5 and 7.4.1.6. Where several stand in a row, the answer is the first
// that fails, if one does.
ghost use Rattle.std.specs.Prelude.{◌≡◌};
ghost use Rattle.clock.specs.Tests.{is_above, is_following, elapsed, failing, standing_tests, later_tests, near_tests, pair_tests, period_over, period_tests};

use crate::circle::{apart, later};
use crate::events::FailedTest;
use crate::means::difference;
use crate::{Last, LocalTime, Pair, Period};

// How many pairs make a factor, 7.4.4.2.2.
pub(crate) const PAIRS: u32 = 16;

// In ms, as the next two; SUBSET-059, 4.3.1.2. This one is of 7.4.1.6.1.
pub(crate) const LOCAL_CLOCK_MAX_RESYNC_INTERVAL: u32 = 3000;

// MaxClockInaccuracyAfterAdjustFactor, 7.4.3.5.
const MAX_CLOCK_INACCURACY: u64 = 100;

// 7.4.3.6, 7.4.3.7.
pub(crate) const TIME_FOR_LONG_TERM_DRIFT_CHECK: u32 = 30000;

// MinNumberOfSyncAndRefMsgReceived, in a period, 7.4.3.6.
const MIN_NUMBER_OF_MESSAGES: u32 = 18;

// In ms: a thousandth of TIME_FOR_LONG_TERM_DRIFT_CHECK, 7.4.3.7.
const DRIFT: u64 = 30;

// Whether the number is above that of the message received last, if there was one.
#[tactic(auto, unfolding(ground::specs::Choice::pick, crate::specs::Tests::is_above))]
pub(crate) fn above(last: Last, number: u32) -> bool
    ensures { result ≡ is_above last number }
{
    last.received == 0 || last.number < number
}

// Whether the message before this number was the one received last.
#[tactic(auto, unfolding(ground::specs::Choice::pick, crate::specs::Tests::is_following))]
pub(crate) fn follows(last: Last, number: u32) -> bool
    ensures { result ≡ is_following last number }
{
    last.received != 0 && number != 0 && number - 1 == last.number
}

// The milliseconds from one moment to another.
#[tactic(auto, unfolding(crate::specs::Circle::minus, crate::specs::Tests::elapsed))]
pub(crate) fn passed(from: LocalTime, to: LocalTime) -> u32
    ensures { result ≡ elapsed from to }
{
    to.0.wrapping_sub(from.0)
}

// 7.4.1.5.1 and 7.4.1.6: there is a factor, and the last resynchronisation is not too long ago.
#[tactic(auto, unfolding(ground::specs::Choice::pick))]
pub(crate) fn standing(
    count: u32,
    resynchronised: LocalTime,
    local: LocalTime,
) -> Result<(), FailedTest>
    ensures { result ≡ failing (standing_tests count resynchronised local) }
{
    if count < PAIRS {
        return Err(FailedTest::NoFactor);
    }
    if passed(resynchronised, local) > LOCAL_CLOCK_MAX_RESYNC_INTERVAL {
        return Err(FailedTest::TooLate);
    }
    Ok(())
}

// 7.4.3.3 and 7.4.3.4, which are 7.4.2.2.1 and 7.4.2.2.2: both times are later than those of the newest pair.
#[tactic(auto, unfolding(ground::specs::Choice::pick))]
pub(crate) fn later_test(new: Pair, newest: Pair) -> Result<(), FailedTest>
    ensures { result ≡ failing (later_tests new newest) }
{
    if !later(new.reference.0, newest.reference.0) {
        return Err(FailedTest::ReferenceNotLater);
    }
    if !later(new.local.0, newest.local.0) {
        return Err(FailedTest::LocalNotLater);
    }
    Ok(())
}

// 7.4.3.5: the pair is near the factor in use before it.
#[tactic(auto, unfolding(ground::specs::Choice::pick))]
fn near(new: Pair, factor: u32) -> Result<(), FailedTest>
    ensures { result ≡ failing (near_tests new factor) }
{
    if apart(difference(new), factor) >= MAX_CLOCK_INACCURACY {
        return Err(FailedTest::ShortTerm);
    }
    Ok(())
}

// 7.4.3.3 to 7.4.3.5.
#[tactic(auto, unfolding(ground::specs::Choice::pick))]
pub(crate) fn pair_test(new: Pair, newest: Pair, factor: u32) -> Result<(), FailedTest>
    ensures { result ≡ failing (pair_tests new newest factor) }
{
    later_test(new, newest)?;
    near(new, factor)
}

// Whether the period has ended by this moment.
#[tactic(auto, unfolding(crate::specs::Tests::period_over))]
pub(crate) fn period_over(period: Period, local: LocalTime) -> bool
    ensures { result ≡ period_over period local }
{
    passed(period.begun, local) >= TIME_FOR_LONG_TERM_DRIFT_CHECK
}

// 7.4.3.6 and 7.4.3.7, for a period that is over.
#[tactic(auto, unfolding(ground::specs::Choice::pick))]
pub(crate) fn period_test(period: Period, factor: u32) -> Result<(), FailedTest>
    ensures { result ≡ failing (period_tests period factor) }
{
    if period.messages < MIN_NUMBER_OF_MESSAGES {
        return Err(FailedTest::TooFew);
    }
    if apart(factor, period.factor) > DRIFT {
        return Err(FailedTest::LongTerm);
    }
    Ok(())
}
