// What a message does, by value: Synchronise, 7.4.2, and Resynchronise, 7.4.3. Clock, message and moment stay three
// parameters, as in `uj_clock_message` and in the definitions: a struct of them would be taken apart again in each
// function.
ghost use Rattle.std.specs.Prelude.{◌≡◌, ◌++◌};
ghost use Rattle.clock.specs.Tests.{failing};
ghost use Rattle.clock.specs.Updates.{pair_by, anew_by, lost_by, first_failing, synchronise, tests_of_pair, tests_of_period, joined_by, pair_taken, gone_on, resynchronise, heard_by};

use crate::checks::{
    PAIRS, above, follows, later_test, pair_test, period_over, period_test, standing,
};
use crate::events::{Event, FailedTest};
use crate::means::mean;
use crate::states::{
    SYNCHRONISED, UNSYNCHRONISED, begun_anew, forgetting, in_period, isolated, kept, paired,
    resynchronised, synchronised,
};
use crate::{Clock, LocalTime, Message, Pair, Step};

// The pair that a message makes with the local time saved at the one before it.
#[tactic(auto, unfolding(crate::specs::Updates::pair_by))]
fn pair_of(c: Clock, message: Message) -> Pair
    ensures { result ≡ pair_by c message }
{
    Pair {
        reference: message.reference,
        local: c.last.local,
    }
}

// A failed test of a clock that is not synchronised: the pairs begin anew, and the message is kept.
#[tactic(auto, unfolding(crate::specs::Updates::anew_by))]
fn anew(c: Clock, message: Message, local: LocalTime, test: FailedTest) -> Step
    ensures { result ≡ anew_by c message local test }
{
    Step {
        clock: kept(begun_anew(c), message, local),
        event: Event::Failed(test),
    }
}

// A failed test of a clock that is synchronised: LostSync, 7.4.1.7.3.3.
#[tactic(auto, unfolding(crate::specs::Updates::lost_by))]
fn lost(c: Clock, test: FailedTest) -> Step
    ensures { result ≡ lost_by c test }
{
    Step {
        clock: isolated(c),
        event: Event::Failed(test),
    }
}

// 7.4.2.2: the tests of a pair while unsynchronised. The first pair has none before it.
#[tactic(auto, unfolding(ground::specs::Choice::pick, crate::specs::Updates::first_failing))]
fn first_failing(c: Clock, new: Pair) -> Result<(), FailedTest>
    ensures { result ≡ first_failing c new }
{
    if c.count == 0 {
        return Ok(());
    }
    later_test(new, c.pairs[0])
}

// A pair more while unsynchronised: the sixteenth synchronises.
#[tactic(auto, unfolding(ground::specs::Choice::pick, crate::specs::Updates::joined_by))]
fn joined(c: Clock, new: Pair, message: Message, local: LocalTime) -> Step
    ensures { result ≡ joined_by c new message local }
{
    let clock = kept(paired(c, new), message, local);
    if clock.count < PAIRS {
        return Step {
            clock,
            event: Event::Paired,
        };
    }
    Step {
        clock: synchronised(clock, local),
        event: Event::NowSynchronised,
    }
}

// 7.4.2: the clock is not yet synchronised.
#[tactic(auto, unfolding(ground::specs::Choice::pick, crate::specs::Tests::by_tests, crate::specs::Updates::synchronise))]
fn synchronise(c: Clock, message: Message, local: LocalTime) -> Step
    ensures { result ≡ synchronise c message local }
{
    if !above(c.last, message.number) {
        return Step {
            clock: forgetting(c),
            event: Event::Failed(FailedTest::NotAbove),
        };
    }
    if !follows(c.last, message.number) {
        return Step {
            clock: kept(c, message, local),
            event: Event::Kept,
        };
    }
    let new = pair_of(c, message);
    match first_failing(c, new) {
        Ok(()) => joined(c, new, message, local),
        Err(test) => anew(c, message, local, test),
    }
}

// 7.4.3.3 to 7.4.3.5, where the message makes a pair.
#[tactic(auto, unfolding(ground::specs::Choice::pick))]
fn pair_failing(c: Clock, message: Message, factor: u32) -> Result<(), FailedTest>
    ensures { result ≡ failing (tests_of_pair c message factor) }
{
    if !follows(c.last, message.number) {
        return Ok(());
    }
    pair_test(pair_of(c, message), c.pairs[0], factor)
}

// 7.4.3.6 and 7.4.3.7, where the period is over.
#[tactic(auto, unfolding(ground::specs::Choice::pick))]
fn period_failing(c: Clock, local: LocalTime, factor: u32) -> Result<(), FailedTest>
    ensures { result ≡ failing (tests_of_period c local factor) }
{
    if !period_over(c.period, local) {
        return Ok(());
    }
    period_test(c.period, factor)
}

// The first test that fails, in the order of the paper.
#[tactic(auto, using(crate::proofs::Cases::failing_join), unfolding(crate::specs::Tests::by_tests))]
fn all_failing(c: Clock, message: Message, local: LocalTime, factor: u32) -> Result<(), FailedTest>
    ensures { result ≡ failing (tests_of_pair c message factor ++ tests_of_period c local factor) }
{
    pair_failing(c, message, factor)?;
    period_failing(c, local, factor)
}

// The pair of a message that makes one, and the moment of the resynchronisation.
#[tactic(auto, unfolding(ground::specs::Choice::pick, crate::specs::Updates::pair_taken))]
fn pair_taken(c: Clock, message: Message, local: LocalTime) -> Step
    ensures { result ≡ pair_taken c message local }
{
    if !follows(c.last, message.number) {
        return Step {
            clock: c,
            event: Event::Kept,
        };
    }
    let with = paired(c, pair_of(c, message));
    Step {
        clock: resynchronised(with, local),
        event: Event::Resynchronised,
    }
}

// All tests passed: the pair, the period and the message.
#[tactic(auto, unfolding(crate::specs::Updates::gone_on))]
fn gone_on(c: Clock, message: Message, local: LocalTime, factor: u32) -> Step
    ensures { result ≡ gone_on c message local factor }
{
    let taken = pair_taken(c, message, local);
    let over = period_over(c.period, local);
    let with = in_period(taken.clock, over, factor);
    Step {
        clock: kept(with, message, local),
        ..taken
    }
}

// 7.4.3: the clock is synchronised.
#[tactic(auto, unfolding(ground::specs::Choice::pick, crate::specs::Tests::by_tests, crate::specs::Updates::resynchronise))]
fn resynchronise(c: Clock, message: Message, local: LocalTime) -> Step
    ensures { result ≡ resynchronise c message local }
{
    if let Err(test) = standing(c.count, c.resynchronised, local) {
        return lost(c, test);
    }
    if !above(c.last, message.number) {
        return Step {
            clock: c,
            event: Event::Dropped,
        };
    }
    let factor = mean(c.pairs);
    match all_failing(c, message, local, factor) {
        Ok(()) => gone_on(c, message, local, factor),
        Err(test) => lost(c, test),
    }
}

// The clock after a message, and the event.
#[tactic(auto, unfolding(ground::specs::Choice::pick, crate::specs::Updates::heard_by))]
pub fn heard(c: Clock, message: Message, local: LocalTime) -> Step
    ensures { result ≡ heard_by c message local }
{
    match c.state {
        UNSYNCHRONISED => synchronise(c, message, local),
        SYNCHRONISED => resynchronise(c, message, local),
        _ => Step {
            clock: c,
            event: Event::StaysIsolated,
        },
    }
}
