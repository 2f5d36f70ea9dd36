// Waits, the watch, and when an idle telegram is due. A timer later than the time counts as no gap.
ghost use Rattle.std.specs.Prelude.{◌≡◌};
ghost use Rattle.link.specs.Times.{wait_over, watch_over, idle_due};

use crate::Record;

// The acknowledgement timeout, 7.2.
const WAIT: u64 = 5000;

// Whether a wait has failed.
#[tactic(auto, unfolding(crate::specs::Times::wait_over))]
pub(crate) fn wait_over(record: Record, time: u64) -> bool
    ensures { result ≡ wait_over «record» time }
{
    WAIT < time.saturating_sub(record.sent_at)
}

// Whether the partner has been silent for longer than it declared.
#[tactic(auto, using(ground::specs::Choice::tests), unfolding(crate::specs::Times::watch_over))]
pub(crate) fn watch_over(record: Record, time: u64) -> bool
    ensures { result ≡ watch_over «record» time }
{
    record.watched != 0 && (record.watched as u64) < time.saturating_sub(record.taken_at)
}

// Whether half of the time that we declared has passed since we last sent.
#[tactic(auto, using(ground::specs::Choice::tests), unfolding(crate::specs::Times::idle_due))]
pub(crate) fn idle_due(record: Record, time: u64) -> bool
    ensures { result ≡ idle_due «record» time }
{
    let gap = time.saturating_sub(record.sent_at);
    record.declared != 0 && (record.declared as u64) <= gap.saturating_mul(2)
}
