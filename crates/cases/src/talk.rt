// A whole set-up and a talk, both sides run by the library: each telegram that one writes is what the other takes. Each
// part is left before the next begins, so that the stack holds one at a time.
use crate::made::closed;
use crate::run::Side;
use std::io;

#[inline(never)]
pub(crate) fn conversation(
    rt: &impl Print,
    level: u32,
    random_8: u32,
    random_1: u32,
) -> io::Result<()> {
    let caller = closed(8, 1, level, random_8);
    let called = closed(1, 8, level, random_1);
    let (caller, called) = set_up(rt, caller, called)?;
    let (caller, called) = data(rt, caller, called)?;
    let (caller, called) = idle(rt, caller, called)?;
    ending(rt, caller, called, 1)?;
    ending(rt, caller, called, 0)
}

// From the request to the connection open on both sides.
#[inline(never)]
fn set_up(rt: &impl Print, caller: Side, called: Side) -> io::Result<(Side, Side)> {
    let (caller, request) = caller.opens(rt, "8 opens", 1000, Some(500))?;
    let (called, confirm) = called.takes(rt, "1 confirms", 1100, request.as_slice())?;
    let (caller, authentication) = caller.takes(rt, "8 authenticates", 1200, confirm.as_slice())?;
    let (called, acknowledgement) = called.takes(
        rt,
        "1 acknowledges",
        1300,
        authentication.as_slice(),
    )?;
    let (caller, _) = caller.takes(rt, "8 is open", 1400, acknowledgement.as_slice())?;
    Ok((caller, called))
}

// Data both ways.
#[inline(never)]
fn data(rt: &impl Print, caller: Side, called: Side) -> io::Result<(Side, Side)> {
    let (caller, data) = caller.sends(rt, "8 sends data", 1500, 0x09, b"there")?;
    let (called, _) = called.takes(rt, "1 takes data", 1510, data.as_slice())?;
    let (called, data) = called.sends(rt, "1 sends data", 1600, 0x3F, b"")?;
    let (caller, _) = caller.takes(rt, "8 takes data", 1610, data.as_slice())?;
    Ok((caller, called))
}

// Idle both ways, by a tick.
#[inline(never)]
fn idle(rt: &impl Print, caller: Side, called: Side) -> io::Result<(Side, Side)> {
    let (caller, idle) = caller.ticks(rt, "8 sends idle", 1750)?;
    let (called, _) = called.takes(rt, "1 takes idle", 1760, idle.as_slice())?;
    let (called, idle) = called.ticks(rt, "1 sends idle", 1850)?;
    let (caller, _) = caller.takes(rt, "8 takes idle", 1860, idle.as_slice())?;
    Ok((caller, called))
}

// Node 8 closes; with type 0 both records are closed finally.
#[inline(never)]
fn ending(rt: &impl Print, caller: Side, called: Side, new_setup: u32) -> io::Result<()> {
    let (_, disconnect) = caller.closes(rt, "8 closes", new_setup, 0)?;
    called.takes(rt, "1 is closed", 1910, disconnect.as_slice())?;
    Ok(())
}
