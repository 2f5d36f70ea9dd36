// What a verdict does: at most one telegram is written, and the record and the event come back. Record and own address
// stay two arguments, as the steps have them: a struct of both would be made only to be taken apart.
ghost use Rattle.std.specs.Prelude.{◌≡◌, [], ◌==◌};
ghost use Rattle.ground.specs.Choice.{pick};
ghost use Rattle.telegram.specs.Fields.{type_of, reason_of, low_of};
ghost use Rattle.telegram.specs.NetData.{net_part};
ghost use Rattle.telegram.specs.Writers.{answer_of, left_by, writes_disconnect, writes_idle};
ghost use Rattle.link.specs.Named.{telegram_number};
ghost use Rattle.link.specs.Records.{end_of, closed_by};
ghost use Rattle.link.specs.Judged.{on_tick};
ghost use Rattle.link.specs.Steps.{quietly, refused_step, writing_step, sent, act_of, act_out};

use crate::phases::{ACKNOWLEDGEMENT_AWAITED, AUTHENTICATION_AWAITED, OPEN};
use crate::records::{after_sending, after_taking, closed_by, end_of};
use crate::{Answer, Event, Record, Step, Verdict};
use telegram::Written;

// The telegrams, by the numbers that an answer has for them. They are no discriminants of `telegram::Kind`, whose
// Unknown is no telegram that is written.
#[derive(Clone, Copy, Debug, PartialEq, Eq)]
pub(crate) enum Telegram {
    Request = 1,
    Confirm = 2,
    Authentication = 3,
    Acknowledgement = 4,
    Disconnect = 5,
    Idle = 6,
    Data = 7,
}

// What a confirm carries, should the telegram received ask for one.
#[derive(Clone, Copy, Debug, PartialEq, Eq)]
pub(crate) struct Offer<'a> {
    pub(crate) random: u32,
    pub(crate) declared: u32,
    pub(crate) net: &'a [u8],
}

// A step that writes nothing.
#[tactic(auto, unfolding(crate::specs::Steps::quietly))]
pub(crate) fn quiet_step(record: Record, event: Event) -> Step
    ensures { result ≡ quietly «record» event }
{
    Step {
        record,
        answer: Answer::default(),
        event,
    }
}

// A refused step. The refusal comes as a number, since a writer's does (`Written`, the C interface).
#[tactic(auto, unfolding(crate::specs::Steps::refused_step))]
pub(crate) fn refused_step(number: u32, record: Record) -> Step
    ensures { result ≡ refused_step number «record» }
{
    Step {
        record,
        answer: Answer {
            number,
            ..Answer::default()
        },
        event: Event::Nothing,
    }
}

// A step that writes, by what the writer answered: in numbers, since writers are called from C, 0 where it wrote.
#[tactic(auto, using(ground::specs::Choice::tests), unfolding(crate::specs::Steps::writing_step))]
pub(crate) fn written_step(
    written: Written,
    old: Record,
    new: Record,
    telegram: Telegram,
    event: Event,
) -> Step
    ensures { result ≡ writing_step written old new (telegram_number telegram) event }
{
    if written.answer != 0 {
        return refused_step(written.answer, old);
    }
    Step {
        record: new,
        answer: Answer {
            number: 0,
            telegram: telegram as u32,
            length: written.length,
        },
        event,
    }
}

// A good request on a closed connection is confirmed.
#[tactic(auto, using(crate::proofs::Cases::becomes))]
fn confirm_step(
    record: Record,
    own: u32,
    time: u64,
    offer: Offer,
    telegram: &[u8],
    out: &mut [u8],
) -> Step
    ensures { (result ≡ act_of Verdict.Confirm «record» own time offer.entry.random offer.entry.declared telegram.now offer.entry.net.now out.old) × (out.new ≡ act_out Verdict.Confirm «record» own offer.entry.random offer.entry.declared telegram.now offer.entry.net.now out.old) }
{
    let Offer {
        random,
        declared,
        net,
    } = offer;
    let end = end_of(record, own);
    let r = Record {
        phase: AUTHENTICATION_AWAITED,
        sending: random.wrapping_add(1),
        expected: telegram::random_number(telegram).wrapping_add(1),
        declared,
        watched: telegram::idle_time(telegram),
        sent_at: time,
        taken_at: time,
        ..record
    };
    let written = writers::write_confirm(out, end, random, declared, net);
    written_step(written, record, r, Telegram::Confirm, Event::Nothing)
}

// A good confirm is answered with the authentication.
#[tactic(auto, using(crate::proofs::Cases::becomes))]
fn authenticate_step(record: Record, own: u32, time: u64, telegram: &[u8], out: &mut [u8]) -> Step
    ensures { (result ≡ act_of Verdict.Authenticate «record» own time 0 0 telegram.now [] out.old) × (out.new ≡ act_out Verdict.Authenticate «record» own 0 0 telegram.now [] out.old) }
{
    let end = end_of(record, own);
    let received = telegram::random_number(telegram);
    let r = Record {
        phase: ACKNOWLEDGEMENT_AWAITED,
        sending: record.sending.wrapping_add(1),
        expected: received.wrapping_add(1),
        watched: telegram::idle_time(telegram),
        sent_at: time,
        taken_at: time,
        ..record
    };
    let written = writers::write_authentication(out, end, record.sending, received);
    written_step(written, record, r, Telegram::Authentication, Event::Nothing)
}

// A good authentication is acknowledged, and the connection is open.
#[tactic(auto, using(crate::proofs::Cases::becomes))]
fn acknowledge_step(record: Record, own: u32, time: u64, out: &mut [u8]) -> Step
    ensures { (result ≡ act_of Verdict.Acknowledge «record» own time 0 0 [] [] out.old) × (out.new ≡ act_out Verdict.Acknowledge «record» own 0 0 [] [] out.old) }
{
    let end = end_of(record, own);
    let received = record.expected.wrapping_sub(1);
    let r = Record {
        phase: OPEN,
        sending: record.sending.wrapping_add(1),
        expected: record.expected.wrapping_add(1),
        sent_at: time,
        taken_at: time,
        ..record
    };
    let written = writers::write_acknowledgement(out, end, record.sending, received);
    written_step(written, record, r, Telegram::Acknowledgement, Event::Opened)
}

// Data for the layer above.
fn data_event(telegram: &[u8]) -> Event
    ensures { result ≡ Event.Data (low_of telegram.now) (net_part telegram.now).start (net_part telegram.now).count }
{
    let part = telegram::net_part(telegram);
    Event::Data {
        command: telegram::command_low(telegram),
        start: part.start,
        count: part.count,
    }
}

// A disconnect of the partner's: closed, finally where its type says so.
fn disconnected_step(record: Record, telegram: &[u8]) -> Step
    ensures { result ≡ quietly (closed_by (type_of telegram.now == 0) «record») (Event.Closed (reason_of telegram.now) (type_of telegram.now == 0)) }
{
    let last = telegram::disconnect_type(telegram) == 0;
    let reason = telegram::disconnect_reason(telegram);
    quiet_step(closed_by(last, record), Event::Closed { reason, last })
}

// An idle telegram.
fn idle_step(record: Record, own: u32, time: u64, out: &mut [u8]) -> Step
    ensures { (result ≡ writing_step (answer_of (writes_idle (end_of «record» own) «record».sending out.old)) «record» (sent «record» time) 6 Event.Nothing) × (out.new ≡ left_by (writes_idle (end_of «record» own) «record».sending out.old) out.old) }
{
    let end = end_of(record, own);
    let r = after_sending(record, time);
    let written = writers::write_idle(out, end, record.sending);
    written_step(written, record, r, Telegram::Idle, Event::Nothing)
}

// A closing by a verdict: the disconnect carries the number from before it, and desires a new set-up where it is not
// final. `close` (steps.rt) stays beside it: its caller gives type and text, here both follow.
#[tactic(auto, unfolding(ground::specs::Choice::pick))]
fn close_step(record: Record, own: u32, reason: u32, last: bool, out: &mut [u8]) -> Step
    ensures { (result ≡ writing_step (answer_of (writes_disconnect (end_of «record» own) «record».sending (pick last 0 1) reason [] out.old)) «record» (closed_by last «record») 5 (Event.Closed reason last)) × (out.new ≡ left_by (writes_disconnect (end_of «record» own) «record».sending (pick last 0 1) reason [] out.old) out.old) }
{
    let end = end_of(record, own);
    let r = closed_by(last, record);
    let new_setup = !last as u32;
    let written = writers::write_disconnect(out, end, record.sending, new_setup, reason, b"");
    let event = Event::Closed { reason, last };
    written_step(written, record, r, Telegram::Disconnect, event)
}

// The step that a verdict on a tick makes. What only a telegram can ask for is nothing here. It is compiled into both
// of its callers: by itself, record and step would go to it and back through the stack of both (docs/DECISIONS.md,
// "Stack on the small card").
#[inline(always)]
pub(crate) fn act_on_tick(
    verdict: Verdict,
    record: Record,
    own: u32,
    time: u64,
    out: &mut [u8],
) -> Step
    ensures { (result ≡ act_of (on_tick verdict) «record» own time 0 0 [] [] out.old) × (out.new ≡ act_out (on_tick verdict) «record» own 0 0 [] [] out.old) }
{
    match verdict {
        Verdict::SendIdle => idle_step(record, own, time, out),
        Verdict::Close { reason, last } => close_step(record, own, reason, last, out),
        Verdict::Nothing
        | Verdict::Confirm
        | Verdict::Authenticate
        | Verdict::Acknowledge
        | Verdict::Open
        | Verdict::Data
        | Verdict::Idle
        | Verdict::Disconnected => quiet_step(record, Event::Nothing),
    }
}

// The step that a verdict on a telegram makes.
pub(crate) fn act(
    verdict: Verdict,
    record: Record,
    own: u32,
    time: u64,
    offer: Offer,
    telegram: &[u8],
    out: &mut [u8],
) -> Step
    ensures { (result ≡ act_of verdict «record» own time offer.entry.random offer.entry.declared telegram.now offer.entry.net.now out.old) × (out.new ≡ act_out verdict «record» own offer.entry.random offer.entry.declared telegram.now offer.entry.net.now out.old) }
{
    match verdict {
        Verdict::Nothing => quiet_step(record, Event::Nothing),
        Verdict::Confirm => confirm_step(record, own, time, offer, telegram, out),
        Verdict::Authenticate => authenticate_step(record, own, time, telegram, out),
        Verdict::Acknowledge => acknowledge_step(record, own, time, out),
        Verdict::Open => quiet_step(after_taking(record, time), Event::Opened),
        Verdict::Data => quiet_step(after_taking(record, time), data_event(telegram)),
        Verdict::Idle => quiet_step(after_taking(record, time), Event::Nothing),
        Verdict::Disconnected => disconnected_step(record, telegram),
        Verdict::SendIdle | Verdict::Close { .. } => act_on_tick(verdict, record, own, time, out),
    }
}
