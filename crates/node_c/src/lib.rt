// The five calls and both constructors for C, on plain numbers. include/ujamniq.h declares them, for the people who
// call them.
#![tactic(auto)]

ghost use Rattle.std.specs.Prelude.{◌≡◌};
ghost use Rattle.link.specs.Records.{fresh_of};
ghost use Rattle.link.specs.Plain.{idle_time_by};
ghost use Rattle.node.specs.Heads.{new_head};
ghost use Rattle.node.specs.Matching.{route_by};
ghost use Rattle.node.specs.Calls.{called};
ghost use Rattle.node.specs.Calls.Call.{Open, Close, Send, Received, Tick};
ghost use Rattle.node.specs.Plain.{plain};

use link::Record;
use node::{Head, PlainOutcome, route_by};

#[unsafe(no_mangle)]
pub extern "C" fn uj_new_head(own: u32) -> Head
    ensures { result ≡ new_head own }
{
    node::new_head(own)
}

#[unsafe(no_mangle)]
pub extern "C" fn uj_fresh(partner: u32, partner_sap: u32, local_sap: u32, level: u32) -> Record
    ensures { result ≡ fresh_of partner partner_sap local_sap level }
{
    link::fresh(partner, partner_sap, local_sap, level)
}

#[unsafe(no_mangle)]
pub extern "C" fn uj_open(
    table: &mut [Record],
    head: Head,
    time: u64,
    place: usize,
    random: u32,
    named: u32,
    idle_time: u32,
    net: &[u8],
    out: &mut [u8],
) -> PlainOutcome
    ensures { (result ≡ plain (called (Open place random (idle_time_by named idle_time) net.now) head table.old time out.old).outcome) × ((table.new ≡ (called (Open place random (idle_time_by named idle_time) net.now) head table.old time out.old).table) × (out.new ≡ (called (Open place random (idle_time_by named idle_time) net.now) head table.old time out.old).out)) }
{
    let idle = link::idle_time_by(named, idle_time);
    node::open(table, head, time, place, random, idle, net, out).into()
}

#[unsafe(no_mangle)]
pub extern "C" fn uj_close(
    table: &mut [Record],
    head: Head,
    time: u64,
    place: usize,
    new_setup: u32,
    reason: u32,
    text: &[u8],
    out: &mut [u8],
) -> PlainOutcome
    ensures { (result ≡ plain (called (Close place new_setup reason text.now) head table.old time out.old).outcome) × ((table.new ≡ (called (Close place new_setup reason text.now) head table.old time out.old).table) × (out.new ≡ (called (Close place new_setup reason text.now) head table.old time out.old).out)) }
{
    node::close(table, head, time, place, new_setup, reason, text, out).into()
}

#[unsafe(no_mangle)]
pub extern "C" fn uj_send(
    table: &mut [Record],
    head: Head,
    time: u64,
    place: usize,
    command: u32,
    net: &[u8],
    out: &mut [u8],
) -> PlainOutcome
    ensures { (result ≡ plain (called (Send place command net.now) head table.old time out.old).outcome) × ((table.new ≡ (called (Send place command net.now) head table.old time out.old).table) × (out.new ≡ (called (Send place command net.now) head table.old time out.old).out)) }
{
    node::send(table, head, time, place, command, net, out).into()
}

#[unsafe(no_mangle)]
pub extern "C" fn uj_received(
    table: &mut [Record],
    head: Head,
    time: u64,
    sender: u32,
    destination_sap: u32,
    source_sap: u32,
    random: u32,
    named: u32,
    idle_time: u32,
    telegram: &[u8],
    net: &[u8],
    out: &mut [u8],
) -> PlainOutcome
    ensures { (result ≡ plain (called (Received (route_by sender destination_sap source_sap) random (idle_time_by named idle_time) telegram.now net.now) head table.old time out.old).outcome) × ((table.new ≡ (called (Received (route_by sender destination_sap source_sap) random (idle_time_by named idle_time) telegram.now net.now) head table.old time out.old).table) × (out.new ≡ (called (Received (route_by sender destination_sap source_sap) random (idle_time_by named idle_time) telegram.now net.now) head table.old time out.old).out)) }
{
    let route = route_by(sender, destination_sap, source_sap);
    let idle = link::idle_time_by(named, idle_time);
    node::received(table, head, time, route, random, idle, telegram, net, out).into()
}

#[unsafe(no_mangle)]
pub extern "C" fn uj_tick(
    table: &mut [Record],
    head: Head,
    time: u64,
    place: usize,
    out: &mut [u8],
) -> PlainOutcome
    ensures { (result ≡ plain (called (Tick place) head table.old time out.old).outcome) × ((table.new ≡ (called (Tick place) head table.old time out.old).table) × (out.new ≡ (called (Tick place) head table.old time out.old).out)) }
{
    node::tick(table, head, time, place, out).into()
}
