// The refusals before the record is looked at, in their order: table, buffer, time, the telegram's length, the record's
// place. The record's own are the step's.
ghost use Rattle.std.specs.Prelude.{◌≡◌, ◌<◌, length, Some, IfOk, IfErr, unwrap_or};
ghost use Rattle.telegram.specs.Refusals.{refusal_number};
ghost use Rattle.node.specs.Refusals.{before};

use crate::Head;
use crate::accepted::table_accepted;
use link::Record;
use telegram::Refusal;

// The place of the record that a call is for, or the first refusal that holds before the record is looked at: 1, 4, 7,
// 6, 2. It is part of each call's code, so that the `Result` needs no memory: 16 to 32 bytes of stack less.
#[tactic(auto, using(ground::specs::Choice::tests), unfolding(crate::specs::Refusals::before))]
#[inline(always)]
pub(crate) fn admitted(
    table: &[Record],
    head: Head,
    time: u64,
    room: usize,
    carried: bool,
    place: Option<usize>,
) -> Result<usize, Refusal>
    ensures placed { IfOk result (λ i. (place ≡ Some i) × (i < length table.now) × (before head table.now time room carried i ≡ 0)) }
    ensures refused { IfErr result (λ refusal. refusal_number refusal ≡ before head table.now time room carried (unwrap_or place (length table.now))) }
{
    if !table_accepted(table, head) {
        return Err(Refusal::OutOfRange);
    }
    if room < telegram::LONGEST {
        return Err(Refusal::NoRoom);
    }
    if time < head.latest {
        return Err(Refusal::TimeBackwards);
    }
    if !carried {
        return Err(Refusal::BadTelegram);
    }
    match place {
        Some(place) if place < table.len() => Ok(place),
        _ => Err(Refusal::NoRecord),
    }
}
