// The factor and the Reference Time for whoever asks, 7.4.4 and 7.4.5.1.
ghost use Rattle.std.specs.Prelude.{◌≡◌};
ghost use Rattle.clock.specs.Asking.{counts_at, factor_at, adjusted_by, time_at};

use crate::checks::{LOCAL_CLOCK_MAX_RESYNC_INTERVAL, PAIRS};
use crate::circle::apart;
use crate::means::mean;
use crate::states::SYNCHRONISED;
use crate::{Clock, LocalTime, RefTime};

// Whether sixteen pairs count at a moment: the clock is synchronised, and its last resynchronisation is at most 3 s
// away.
#[tactic(auto, unfolding(ground::specs::Choice::pick, crate::specs::Asking::counts_at))]
fn counts(c: Clock, local: LocalTime) -> bool
    ensures { result ≡ counts_at c local }
{
    c.state == SYNCHRONISED
        && c.count >= PAIRS
        && apart(local.0, c.resynchronised.0) <= LOCAL_CLOCK_MAX_RESYNC_INTERVAL as u64
}

// Reference Time out of a local time, by the factor: the one place where it is made.
#[tactic(auto, unfolding(crate::specs::Asking::adjusted_by))]
fn adjusted(local: LocalTime, factor: u32) -> RefTime
    ensures { result ≡ adjusted_by local factor }
{
    let time = local.0.wrapping_add(factor);
    RefTime(time)
}

// The factor at a moment, where sixteen pairs count. Inlined, so that its callers read the pairs where they stand: a
// call would have the clock copied first.
#[inline(always)]
#[tactic(auto, unfolding(ground::specs::Choice::pick, crate::specs::Asking::factor_at))]
pub fn factor(c: Clock, local: LocalTime) -> Option<u32>
    ensures { result ≡ factor_at c local }
{
    if counts(c, local) {
        Some(mean(c.pairs))
    } else {
        None
    }
}

// The Reference Time at a moment, where there is a factor.
#[tactic(auto, unfolding(crate::specs::Asking::time_at))]
pub fn reference_time(c: Clock, local: LocalTime) -> Option<RefTime>
    ensures { result ≡ time_at c local }
{
    factor(c, local).map(|f| adjusted(local, f))
}
