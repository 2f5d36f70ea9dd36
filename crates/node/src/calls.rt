// The five calls. Each refuses what concerns the table, and else applies the step of one connection to one record,
// where it stands. Their arguments are those that the scope names, one by one.
ghost use Rattle.std.specs.Prelude.{◌≡◌, length, unwrap_or};
ghost use Rattle.node.specs.Matching.{place_in};
ghost use Rattle.node.specs.Calls.{Call, place_of, carried_by, TakesStep, called};
ghost use Rattle.node.specs.Calls.Call.{Open, Close, Send, Received, Tick};

use crate::matching::first_match;
use crate::outcomes::{refused, settle};
use crate::refusals::admitted;
use crate::{Head, Outcome, Route};
use link::{Record, Step};

// What the five calls share: where nothing refuses the call, its step is taken of the record in its place, and the
// record that the step leaves is put back there. It does what `called` says of any call c that has this place, or none
// as this, has this answer to whether the bus carries its telegram, and takes this step.
fn call<F: FnOnce(Record, &mut [u8]) -> Step>(
    table: &mut [Record],
    head: Head,
    time: u64,
    place: Option<usize>,
    carried: bool,
    out: &mut [u8],
    step: F,
) -> Outcome
    requires { F.IsAlwaysCallable step }
    ensures { (c : Call) → place_in table.old (unwrap_or place (length table.old)) ≡ place_in table.old (place_of c table.old) → carried ≡ carried_by c
        → TakesStep c head.own time (F.post step)
        → (result ≡ (called c head table.old time out.old).outcome) × ((table.new ≡ (called c head table.old time out.old).table) × (out.new ≡ (called c head table.old time out.old).out)) }
{
    let place = match admitted(table, head, time, out.len(), carried, place) {
        Ok(place) => place,
        Err(refusal) => return refused(refusal as u32, head),
    };
    let step = step(table[place], out);
    table[place] = step.record;
    settle(step, head, time)
}

// Opens the connection at a place: a request goes out under the random number.
pub fn open(
    table: &mut [Record],
    head: Head,
    time: u64,
    place: usize,
    random: u32,
    idle: Option<u32>,
    net: &[u8],
    out: &mut [u8],
) -> Outcome
    ensures { (result ≡ (called (Open place random idle net.now) head table.old time out.old).outcome) × ((table.new ≡ (called (Open place random idle net.now) head table.old time out.old).table) × (out.new ≡ (called (Open place random idle net.now) head table.old time out.old).out)) }
{
    call(table, head, time, Some(place), true, out, |record, out| {
        link::open(record, head.own, time, random, idle, net, out)
    })
}

// Closes the connection at a place: a disconnect goes out.
pub fn close(
    table: &mut [Record],
    head: Head,
    time: u64,
    place: usize,
    new_setup: u32,
    reason: u32,
    text: &[u8],
    out: &mut [u8],
) -> Outcome
    ensures { (result ≡ (called (Close place new_setup reason text.now) head table.old time out.old).outcome) × ((table.new ≡ (called (Close place new_setup reason text.now) head table.old time out.old).table) × (out.new ≡ (called (Close place new_setup reason text.now) head table.old time out.old).out)) }
{
    call(table, head, time, Some(place), true, out, |record, out| {
        link::close(record, head.own, new_setup, reason, text, out)
    })
}

// Sends data on the connection at a place.
pub fn send(
    table: &mut [Record],
    head: Head,
    time: u64,
    place: usize,
    command: u32,
    net: &[u8],
    out: &mut [u8],
) -> Outcome
    ensures { (result ≡ (called (Send place command net.now) head table.old time out.old).outcome) × ((table.new ≡ (called (Send place command net.now) head table.old time out.old).table) × (out.new ≡ (called (Send place command net.now) head table.old time out.old).out)) }
{
    call(table, head, time, Some(place), true, out, |record, out| {
        link::send(record, head.own, time, command, net, out)
    })
}

// Takes a telegram for the connection that its route names. Random number, idle time and net data are for a possible
// confirm.
pub fn received(
    table: &mut [Record],
    head: Head,
    time: u64,
    route: Route,
    random: u32,
    idle: Option<u32>,
    telegram: &[u8],
    net: &[u8],
    out: &mut [u8],
) -> Outcome
    ensures { (result ≡ (called (Received route random idle telegram.now net.now) head table.old time out.old).outcome) × ((table.new ≡ (called (Received route random idle telegram.now net.now) head table.old time out.old).table) × (out.new ≡ (called (Received route random idle telegram.now net.now) head table.old time out.old).out)) }
{
    let place = first_match(table, route);
    let carried = telegram::on_bus(telegram.len());
    call(table, head, time, place, carried, out, |record, out| {
        link::received(record, head.own, time, random, idle, telegram, net, out)
    })
}

// Lets time pass for the connection at a place.
pub fn tick(table: &mut [Record], head: Head, time: u64, place: usize, out: &mut [u8]) -> Outcome
    ensures { (result ≡ (called (Tick place) head table.old time out.old).outcome) × ((table.new ≡ (called (Tick place) head table.old time out.old).table) × (out.new ≡ (called (Tick place) head table.old time out.old).out)) }
{
    call(table, head, time, Some(place), true, out, |record, out| {
        link::tick(record, head.own, time, out)
    })
}
