// Records: which the rules accept, a fresh one, and what closing leaves.
ghost use Rattle.std.specs.Prelude.{◌≡◌};
ghost use Rattle.link.specs.Records.{end_of, is_phase, at_rest, is_closed, record_in_range, fresh_of, closed_by};
ghost use Rattle.link.specs.Steps.{taken, sent};

use crate::Record;
use crate::phases::{CLOSED, FINALLY_CLOSED, OPEN};
use telegram::End;

// The end of the connection that a node of this address is.
#[tactic(auto, unfolding(crate::specs::Records::end_of))]
pub(crate) fn end_of(record: Record, own: u32) -> End
    ensures { result ≡ end_of «record» own }
{
    End {
        own,
        partner: record.partner,
        partner_sap: record.partner_sap,
        local_sap: record.local_sap,
        level: record.level,
    }
}

// This and the next ask of a number and not of a `Phase`: a caller's record may have any.
#[tactic(auto, using(ground::specs::Choice::tests), unfolding(crate::specs::Records::is_phase))]
fn is_phase(phase: u32) -> bool
    ensures { result ≡ is_phase phase }
{
    matches!(phase, CLOSED..=FINALLY_CLOSED)
}

#[tactic(auto, using(ground::specs::Choice::tests), unfolding(crate::specs::Records::is_closed))]
fn is_closed(phase: u32) -> bool
    ensures { result ≡ is_closed phase }
{
    matches!(phase, CLOSED | FINALLY_CLOSED)
}

// Whether numbers, idle times and timers are 0: each for itself, as the definition lists them, and no derived equality
// with a record of zeros, which would compare partner, SAPs and level with themselves.
#[tactic(auto, using(ground::specs::Choice::tests), unfolding(crate::specs::Records::at_rest))]
fn at_rest(record: Record) -> bool
    ensures { result ≡ at_rest «record» }
{
    record.sending == 0
        && record.expected == 0
        && record.declared == 0
        && record.watched == 0
        && record.sent_at == 0
        && record.taken_at == 0
}

// Whether the record's own fields and the node's address are in range.
#[tactic(auto, using(ground::specs::Choice::tests), unfolding(crate::specs::Records::record_in_range))]
pub fn record_in_range(record: Record, own: u32) -> bool
    ensures { result ≡ record_in_range «record» own }
{
    telegram::in_range(end_of(record, own))
        && is_phase(record.phase)
        && telegram::good_idle(record.declared)
        && telegram::good_idle(record.watched)
        && (!is_closed(record.phase) || at_rest(record))
}

// A record that has never been used.
#[tactic(auto, unfolding(crate::specs::Records::fresh_of))]
pub fn fresh(partner: u32, partner_sap: u32, local_sap: u32, level: u32) -> Record
    ensures { result ≡ fresh_of partner partner_sap local_sap level }
{
    Record {
        partner,
        partner_sap,
        local_sap,
        level,
        phase: CLOSED,
        sending: 0,
        expected: 0,
        declared: 0,
        watched: 0,
        sent_at: 0,
        taken_at: 0,
    }
}

// The same connection, closed.
#[tactic(auto, using(ground::specs::Choice::tests, crate::proofs::Cases::becomes), unfolding(crate::specs::Records::closed_by, crate::specs::Records::fresh_of))]
pub(crate) fn closed_by(last: bool, record: Record) -> Record
    ensures { result ≡ closed_by last «record» }
{
    let phase = if last { FINALLY_CLOSED } else { CLOSED };
    let closed = fresh(
        record.partner,
        record.partner_sap,
        record.local_sap,
        record.level,
    );
    Record { phase, ..closed }
}

// The same open connection after a telegram was taken, and after one was sent. They stay two: each has its own number
// and its own timer.
#[tactic(auto, using(crate::proofs::Cases::becomes), unfolding(crate::specs::Steps::taken))]
pub(crate) fn after_taking(record: Record, time: u64) -> Record
    ensures { result ≡ taken «record» time }
{
    Record {
        phase: OPEN,
        expected: record.expected.wrapping_add(1),
        taken_at: time,
        ..record
    }
}

#[tactic(auto, using(crate::proofs::Cases::becomes), unfolding(crate::specs::Steps::sent))]
pub(crate) fn after_sending(record: Record, time: u64) -> Record
    ensures { result ≡ sent «record» time }
{
    Record {
        phase: OPEN,
        sending: record.sending.wrapping_add(1),
        sent_at: time,
        ..record
    }
}
