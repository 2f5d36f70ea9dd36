// What a received telegram or a tick asks for. Nothing is written here and no record changes.
ghost use Rattle.std.specs.Prelude.{◌≡◌};
ghost use Rattle.telegram.specs.Commands.{kind_of_command};
ghost use Rattle.telegram.specs.Check.{command_of};
ghost use Rattle.link.specs.Named.{phase_number};
ghost use Rattle.link.specs.Judged.{row_of, ruled, good_version, good_number, narrowed, passed, checked_by, expected_now, run_out, run_out_verdict, judged, ticked};
ghost use Rattle.link.specs.Table.{Incorrect-rcv-1st};

use crate::phases::{AUTHENTICATION_AWAITED, OPEN, Phase};
use crate::records::end_of;
use crate::times::{idle_due, wait_over, watch_over};
use crate::{Record, Verdict};
use telegram::{Check, Kind};

// The closings of 5.2.5.7 and 5.2.5.8 by their reasons (5.2.5.9), which go out as numbers, and whether each is final.
const BAD_VERSION: Verdict = Verdict::Close {
    reason: 0x01,
    last: true,
};

const SET_UP_ERROR: Verdict = Verdict::Close {
    reason: 0x02,
    last: false,
};

const AUTHENTICATION_ERROR: Verdict = Verdict::Close {
    reason: 0x03,
    last: true,
};

const SET_UP_ON_OPEN: Verdict = Verdict::Close {
    reason: 0x04,
    last: false,
};

const IDLE_TIME_OUT: Verdict = Verdict::Close {
    reason: 0x05,
    last: false,
};

const INCORRECT: Verdict = Verdict::Close {
    reason: 0x06,
    last: false,
};

// Column Idle: a request is confirmed, everything else dropped.
fn in_closed(kind: Kind) -> Verdict
    ensures { result ≡ ruled (row_of kind) 1 }
{
    match kind {
        Kind::Request => Verdict::Confirm,
        Kind::Confirm
        | Kind::Authentication
        | Kind::Acknowledgement
        | Kind::Disconnect
        | Kind::Idle
        | Kind::Data
        | Kind::Unknown => Verdict::Nothing,
    }
}

// Column wConAck.
fn in_confirm_awaited(kind: Kind) -> Verdict
    ensures { result ≡ ruled (row_of kind) 2 }
{
    match kind {
        Kind::Confirm => Verdict::Authenticate,
        Kind::Disconnect => Verdict::Disconnected,
        Kind::Request | Kind::Authentication | Kind::Acknowledgement | Kind::Idle | Kind::Data =>
            Verdict::Nothing,
        Kind::Unknown => INCORRECT,
    }
}

// Column wAuthReq. It and the next stay two functions, as all five: each is a column of the paper.
#[tactic(auto, unfolding(ground::specs::Choice::pick))]
fn in_authentication_awaited(kind: Kind) -> Verdict
    ensures { result ≡ ruled (row_of kind) 3 }
{
    match kind {
        Kind::Authentication => Verdict::Acknowledge,
        Kind::Disconnect => Verdict::Disconnected,
        Kind::Request | Kind::Confirm | Kind::Acknowledgement | Kind::Idle | Kind::Data => {
            AUTHENTICATION_ERROR
        }
        Kind::Unknown => INCORRECT,
    }
}

// Column wAuthAck.
#[tactic(auto, unfolding(ground::specs::Choice::pick))]
fn in_acknowledgement_awaited(kind: Kind) -> Verdict
    ensures { result ≡ ruled (row_of kind) 4 }
{
    match kind {
        Kind::Acknowledgement => Verdict::Open,
        Kind::Disconnect => Verdict::Disconnected,
        Kind::Request | Kind::Confirm | Kind::Authentication | Kind::Idle | Kind::Data => {
            AUTHENTICATION_ERROR
        }
        Kind::Unknown => INCORRECT,
    }
}

// Column Data.
#[tactic(auto, unfolding(ground::specs::Choice::pick))]
fn in_open(kind: Kind) -> Verdict
    ensures { result ≡ ruled (row_of kind) 5 }
{
    match kind {
        Kind::Idle => Verdict::Idle,
        Kind::Data => Verdict::Data,
        Kind::Disconnect => Verdict::Disconnected,
        Kind::Request | Kind::Confirm | Kind::Authentication | Kind::Acknowledgement => {
            SET_UP_ON_OPEN
        }
        Kind::Unknown => INCORRECT,
    }
}

// The table's verdict on a telegram that passes the check.
#[tactic(auto, using(crate::proofs::Cases::last_column))]
fn rule(phase: Phase, kind: Kind) -> Verdict
    ensures { result ≡ ruled (row_of kind) (phase_number phase) }
{
    match phase {
        Phase::Closed => in_closed(kind),
        Phase::ConfirmAwaited => in_confirm_awaited(kind),
        Phase::AuthenticationAwaited => in_authentication_awaited(kind),
        Phase::AcknowledgementAwaited => in_acknowledgement_awaited(kind),
        Phase::Open => in_open(kind),
        Phase::FinallyClosed => Verdict::Nothing,
    }
}

// The table's verdict on a telegram that fails the check.
fn failed(phase: Phase) -> Verdict
    ensures { result ≡ ruled Incorrect-rcv-1st (phase_number phase) }
{
    match phase {
        Phase::Closed | Phase::FinallyClosed => Verdict::Nothing,
        Phase::ConfirmAwaited
        | Phase::AuthenticationAwaited
        | Phase::AcknowledgementAwaited
        | Phase::Open => INCORRECT,
    }
}

// The table's verdict on a wait or watch that ran out.
#[tactic(auto, unfolding(crate::specs::Judged::run_out_verdict, ground::specs::Choice::pick))]
fn run_out_verdict(phase: Phase) -> Verdict
    ensures { result ≡ run_out_verdict (phase_number phase) }
{
    match phase {
        Phase::Closed | Phase::FinallyClosed => Verdict::Nothing,
        Phase::ConfirmAwaited => SET_UP_ERROR,
        Phase::AuthenticationAwaited | Phase::AcknowledgementAwaited => AUTHENTICATION_ERROR,
        Phase::Open => IDLE_TIME_OUT,
    }
}

// Whether the timer that runs in this phase has run out.
#[tactic(auto, using(ground::specs::Choice::tests), unfolding(crate::specs::Judged::run_out))]
fn run_out(record: Record, time: u64) -> bool
    ensures { result ≡ run_out «record» time }
{
    match Phase::of(record.phase) {
        Phase::Closed | Phase::FinallyClosed => false,
        Phase::ConfirmAwaited | Phase::AuthenticationAwaited | Phase::AcknowledgementAwaited => {
            wait_over(record, time)
        }
        Phase::Open => watch_over(record, time),
    }
}

// Whether a request's or confirm's version is accepted.
#[tactic(auto, using(ground::specs::Choice::tests), unfolding(crate::specs::Judged::good_version))]
fn good_version(telegram: &[u8]) -> bool
    ensures { result ≡ good_version telegram.now }
{
    telegram::version_x(telegram) == 3 && telegram::version_y(telegram) == 0
}

// Whether an authentication number is our random number, changed as the level asks. Ours is that many before the number
// that we send next.
#[tactic(auto, unfolding(crate::specs::Judged::good_number))]
fn good_number(record: Record, before: u32, telegram: &[u8]) -> bool
    ensures { result ≡ good_number «record» before telegram.now }
{
    let ours = record.sending.wrapping_sub(before);
    telegram::authentication_number(telegram) == writers::authentication_of(record.level, ours)
}

// What the table leaves open: version and authentication number.
#[tactic(auto, unfolding(ground::specs::Choice::pick))]
fn narrow(verdict: Verdict, record: Record, telegram: &[u8]) -> Verdict
    ensures { result ≡ narrowed verdict «record» telegram.now }
{
    match verdict {
        Verdict::Confirm if !good_version(telegram) => Verdict::Nothing,
        Verdict::Authenticate if !good_version(telegram) => BAD_VERSION,
        Verdict::Acknowledge if !good_number(record, 1, telegram) => AUTHENTICATION_ERROR,
        Verdict::Open if !good_number(record, 2, telegram) => AUTHENTICATION_ERROR,
        Verdict::Confirm
        | Verdict::Authenticate
        | Verdict::Acknowledge
        | Verdict::Open
        | Verdict::Nothing
        | Verdict::Data
        | Verdict::Idle
        | Verdict::SendIdle
        | Verdict::Disconnected
        | Verdict::Close { .. } => verdict,
    }
}

// The number expected: while nothing is awaited, or a confirm is, 0.
#[tactic(auto, using(ground::specs::Choice::tests), unfolding(crate::specs::Judged::expected_now))]
fn expected_now(record: Record) -> u32
    ensures { result ≡ expected_now «record» }
{
    if record.phase < AUTHENTICATION_AWAITED {
        0
    } else {
        record.expected
    }
}

// A telegram that passes the check.
#[tactic(auto, using(crate::proofs::Cases::ruled_by_column), unfolding(crate::specs::Judged::passed))]
fn judge_passed(record: Record, telegram: &[u8]) -> Verdict
    ensures { result ≡ passed «record» (kind_of_command (command_of telegram.now)) telegram.now }
{
    let verdict = rule(
        Phase::of(record.phase),
        telegram::kind_of_telegram(telegram),
    );
    narrow(verdict, record, telegram)
}

// By what the check found.
#[tactic(auto, using(crate::proofs::Cases::incorrect_by_column))]
fn judge_checked(check: Check, record: Record, telegram: &[u8]) -> Verdict
    ensures { result ≡ checked_by check «record» telegram.now }
{
    match check {
        Ok(()) => judge_passed(record, telegram),
        Err(_) => failed(Phase::of(record.phase)),
    }
}

// A received telegram.
#[tactic(auto, using(ground::specs::Choice::tests, crate::proofs::Cases::run_out_by_column), unfolding(crate::specs::Judged::judged))]
pub(crate) fn judge(record: Record, own: u32, time: u64, telegram: &[u8]) -> Verdict
    ensures { result ≡ judged «record» own time telegram.now }
{
    if run_out(record, time) {
        return run_out_verdict(Phase::of(record.phase));
    }
    let end = end_of(record, own);
    let check = checking::checked(end, expected_now(record), telegram);
    judge_checked(check, record, telegram)
}

// A tick: closing before idle.
#[tactic(auto, using(ground::specs::Choice::tests, crate::proofs::Cases::run_out_by_column), unfolding(crate::specs::Judged::ticked))]
pub(crate) fn judge_tick(record: Record, time: u64) -> Verdict
    ensures { result ≡ ticked «record» time }
{
    if run_out(record, time) {
        run_out_verdict(Phase::of(record.phase))
    } else if record.phase == OPEN && idle_due(record, time) {
        Verdict::SendIdle
    } else {
        Verdict::Nothing
    }
}
