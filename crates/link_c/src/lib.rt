// The five steps for C, on a record by value and plain numbers: for the second program that compares them, and in no
// archive that is installed.
#![tactic(auto)]

ghost use Rattle.std.specs.Prelude.{◌≡◌};
ghost use Rattle.link.specs.Steps.{open_of, open_out, close_of, close_out, send_of, send_out, received_of, received_out, tick_of, tick_out};
ghost use Rattle.link.specs.Plain.{idle_time_by, plain};

use link::{Record, Stepped};

#[unsafe(no_mangle)]
pub extern "C" fn uj_link_open(
    record: Record,
    own: u32,
    time: u64,
    random: u32,
    named: u32,
    idle_time: u32,
    net: &[u8],
    out: &mut [u8],
) -> Stepped
    ensures { (result ≡ plain (open_of «record» own time random (idle_time_by named idle_time) net.now out.old)) × (out.new ≡ open_out «record» own random (idle_time_by named idle_time) net.now out.old) }
{
    let idle = link::idle_time_by(named, idle_time);
    Stepped::from(link::open(record, own, time, random, idle, net, out))
}

#[unsafe(no_mangle)]
pub extern "C" fn uj_link_close(
    record: Record,
    own: u32,
    new_setup: u32,
    reason: u32,
    text: &[u8],
    out: &mut [u8],
) -> Stepped
    ensures { (result ≡ plain (close_of «record» own new_setup reason text.now out.old)) × (out.new ≡ close_out «record» own new_setup reason text.now out.old) }
{
    Stepped::from(link::close(record, own, new_setup, reason, text, out))
}

#[unsafe(no_mangle)]
pub extern "C" fn uj_link_send(
    record: Record,
    own: u32,
    time: u64,
    command: u32,
    net: &[u8],
    out: &mut [u8],
) -> Stepped
    ensures { (result ≡ plain (send_of «record» own time command net.now out.old)) × (out.new ≡ send_out «record» own command net.now out.old) }
{
    Stepped::from(link::send(record, own, time, command, net, out))
}

#[unsafe(no_mangle)]
pub extern "C" fn uj_link_received(
    record: Record,
    own: u32,
    time: u64,
    random: u32,
    named: u32,
    idle_time: u32,
    telegram: &[u8],
    net: &[u8],
    out: &mut [u8],
) -> Stepped
    ensures { (result ≡ plain (received_of «record» own time random (idle_time_by named idle_time) telegram.now net.now out.old)) × (out.new ≡ received_out «record» own time random (idle_time_by named idle_time) telegram.now net.now out.old) }
{
    let idle = link::idle_time_by(named, idle_time);
    Stepped::from(link::received(record, own, time, random, idle, telegram, net, out))
}

#[unsafe(no_mangle)]
pub extern "C" fn uj_link_tick(record: Record, own: u32, time: u64, out: &mut [u8]) -> Stepped
    ensures { (result ≡ plain (tick_of «record» own time out.old)) × (out.new ≡ tick_out «record» own time out.old) }
{
    Stepped::from(link::tick(record, own, time, out))
}
