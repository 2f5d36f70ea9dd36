// The five steps over one record: open, close, send, received, tick. Each writes at most one telegram into the lent
// buffer; a refused step changes nothing. Their arguments are those that the scope names, one by one. Each begins with
// its refusals: three lines, shorter than a function around it that would take the rest of the step as a closure. What
// a step writes under which number and what its record becomes is each step's own.
ghost use Rattle.std.specs.Prelude.{◌≡◌, nat_le};
ghost use Rattle.telegram.specs.Layout.{longest};
ghost use Rattle.telegram.specs.Refusals.{answered};
ghost use Rattle.link.specs.Records.{become, record_in_range};
ghost use Rattle.link.specs.Steps.{next, neb, first_refusal, declared_by, open_of, open_out, close_of, close_out, send_of, send_out, received_of, received_out, tick_of, tick_out};

use crate::act::{Offer, Telegram, act, act_on_tick, refused_step, written_step};
use crate::judge::{judge, judge_tick};
use crate::phases::{CLOSED, CONFIRM_AWAITED, FINALLY_CLOSED, OPEN};
use crate::records::{after_sending, closed_by, end_of, record_in_range};
use crate::{Event, Record, Step};
use telegram::Refusal;

// The idle time that an opening or a confirm declares when none is named.
const UNNAMED: u32 = 1000;

#[tactic(auto, unfolding(crate::specs::Steps::declared_by))]
fn declared_by(idle: Option<u32>) -> u32
    ensures { result ≡ declared_by idle }
{
    idle.unwrap_or(UNNAMED)
}

// What a step asks for beside record and buffer: a telegram that the bus can carry, a phase that it is for, values that
// are allowed.
#[derive(Clone, Copy, Debug, PartialEq, Eq)]
struct Conditions {
    carried: bool,
    suited: bool,
    allowed: bool,
}

// As they are for a step that does not ask.
const MET: Conditions = Conditions {
    carried: true,
    suited: true,
    allowed: true,
};

// The first refusal that holds of a step, in the scope's order.
#[tactic(auto, using(ground::specs::Choice::tests), unfolding(crate::specs::Steps::first_refusal))]
fn first_refusal(record: Record, own: u32, room: usize, asked: Conditions) -> Result<(), Refusal>
    ensures { answered result ≡ first_refusal (record_in_range «record» own) (nat_le longest room) asked.carried (neb «record».phase 6) asked.suited asked.allowed }
{
    if !record_in_range(record, own) {
        Err(Refusal::OutOfRange)
    } else if room < telegram::LONGEST {
        Err(Refusal::NoRoom)
    } else if !asked.carried {
        Err(Refusal::BadTelegram)
    } else if record.phase == FINALLY_CLOSED {
        Err(Refusal::Ended)
    } else if !asked.suited {
        Err(Refusal::WrongPhase)
    } else if !asked.allowed {
        Err(Refusal::BadValue)
    } else {
        Ok(())
    }
}

// The record of a connection whose request has gone out.
#[tactic(auto, using(crate::proofs::Cases::becomes))]
fn after_request(record: Record, time: u64, random: u32, declared: u32) -> Record
    ensures { result ≡ become «record» 2 (next random) 0 declared 0 time 0 }
{
    Record {
        phase: CONFIRM_AWAITED,
        sending: random.wrapping_add(1),
        expected: 0,
        declared,
        watched: 0,
        sent_at: time,
        taken_at: 0,
        ..record
    }
}

// Opens a closed connection: a request goes out under the random number, and a confirm is awaited.
#[tactic(auto, using(ground::specs::Choice::tests), unfolding(crate::specs::Steps::open_of, crate::specs::Steps::open_out, crate::specs::Steps::open_refusal))]
pub fn open(
    record: Record,
    own: u32,
    time: u64,
    random: u32,
    idle: Option<u32>,
    net: &[u8],
    out: &mut [u8],
) -> Step
    ensures { (result ≡ open_of «record» own time random idle net.now out.old) × (out.new ≡ open_out «record» own random idle net.now out.old) }
{
    let declared = declared_by(idle);
    let asked = Conditions {
        suited: record.phase == CLOSED,
        allowed: writers::connect_allowed(declared, net.len(), record.level),
        ..MET
    };
    if let Err(refusal) = first_refusal(record, own, out.len(), asked) {
        return refused_step(refusal as u32, record);
    }
    let end = end_of(record, own);
    let r = after_request(record, time, random, declared);
    let written = writers::write_request(out, end, random, declared, net);
    written_step(written, record, r, Telegram::Request, Event::Nothing)
}

// Closes a connection: a disconnect goes out with the layer above's type, reason and text.
#[tactic(auto, using(ground::specs::Choice::tests), unfolding(crate::specs::Steps::close_of, crate::specs::Steps::close_out, crate::specs::Steps::close_refusal))]
pub fn close(
    record: Record,
    own: u32,
    new_setup: u32,
    reason: u32,
    text: &[u8],
    out: &mut [u8],
) -> Step
    ensures { (result ≡ close_of «record» own new_setup reason text.now out.old) × (out.new ≡ close_out «record» own new_setup reason text.now out.old) }
{
    let asked = Conditions {
        suited: record.phase != CLOSED,
        allowed: writers::disconnect_allowed(new_setup, reason, text.len(), record.level),
        ..MET
    };
    if let Err(refusal) = first_refusal(record, own, out.len(), asked) {
        return refused_step(refusal as u32, record);
    }
    let end = end_of(record, own);
    let last = new_setup == 0;
    let r = closed_by(last, record);
    let written = writers::write_disconnect(out, end, record.sending, new_setup, reason, text);
    let event = Event::Closed { reason, last };
    written_step(written, record, r, Telegram::Disconnect, event)
}

// Sends data on an open connection, under the command's low six bits. Neither wait nor watch is looked at.
#[tactic(auto, using(ground::specs::Choice::tests), unfolding(crate::specs::Steps::send_of, crate::specs::Steps::send_out, crate::specs::Steps::send_refusal))]
pub fn send(record: Record, own: u32, time: u64, command: u32, net: &[u8], out: &mut [u8]) -> Step
    ensures { (result ≡ send_of «record» own time command net.now out.old) × (out.new ≡ send_out «record» own command net.now out.old) }
{
    let asked = Conditions {
        suited: record.phase == OPEN,
        allowed: writers::data_allowed(command, net.len(), record.level),
        ..MET
    };
    if let Err(refusal) = first_refusal(record, own, out.len(), asked) {
        return refused_step(refusal as u32, record);
    }
    let end = end_of(record, own);
    let r = after_sending(record, time);
    let written = writers::write_data(out, end, record.sending, command, net);
    written_step(written, record, r, Telegram::Data, Event::Nothing)
}

// Takes a telegram. The random number, the idle time and the net data are for a possible confirm.
#[tactic(auto, using(ground::specs::Choice::tests), unfolding(crate::specs::Steps::received_of, crate::specs::Steps::received_out, crate::specs::Steps::received_refusal))]
pub fn received(
    record: Record,
    own: u32,
    time: u64,
    random: u32,
    idle: Option<u32>,
    telegram: &[u8],
    net: &[u8],
    out: &mut [u8],
) -> Step
    ensures { (result ≡ received_of «record» own time random idle telegram.now net.now out.old) × (out.new ≡ received_out «record» own time random idle telegram.now net.now out.old) }
{
    let declared = declared_by(idle);
    let asked = Conditions {
        carried: telegram::on_bus(telegram.len()),
        allowed: writers::connect_allowed(declared, net.len(), record.level),
        ..MET
    };
    if let Err(refusal) = first_refusal(record, own, out.len(), asked) {
        return refused_step(refusal as u32, record);
    }
    let verdict = judge(record, own, time, telegram);
    let offer = Offer {
        random,
        declared,
        net,
    };
    act(verdict, record, own, time, offer, telegram, out)
}

// Lets time pass: a wait or watch that ran out closes, and an idle telegram goes out when it is due.
#[tactic(auto, using(ground::specs::Choice::tests, crate::proofs::Cases::tick_asks), unfolding(crate::specs::Steps::tick_of, crate::specs::Steps::tick_out, crate::specs::Steps::tick_refusal))]
pub fn tick(record: Record, own: u32, time: u64, out: &mut [u8]) -> Step
    ensures { (result ≡ tick_of «record» own time out.old) × (out.new ≡ tick_out «record» own time out.old) }
{
    if let Err(refusal) = first_refusal(record, own, out.len(), MET) {
        return refused_step(refusal as u32, record);
    }
    let verdict = judge_tick(record, time);
    act_on_tick(verdict, record, own, time, out)
}
