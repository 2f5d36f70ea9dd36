// Rules that are easy to miss.
use crate::made::{Kind, Phase, in_phase, partner, telegram_for};
use crate::run::Side;
use shown::Telegram;
use std::io;
use telegram::LONGEST;

// Good data on an open record, with this much net data lent for a confirm that is not sent, or an idle time named.
#[inline(never)]
fn lent(rt: &impl Print, open: Side) -> io::Result<()> {
    let data = telegram_for(open, Kind::Data);
    let net = [0xAA; 240];
    for n in 226..=229 {
        let name = format_args!("data, {n} bytes lent");
        let none = None;
        open.takes_lent(rt, name, 1100, data.as_slice(), none, &net[..n])?;
    }
    let name = "data, idle time 150 named";
    let idle = Some(150);
    open.takes_lent(rt, name, 1100, data.as_slice(), idle, b"")?;
    Ok(())
}

// Neither wait nor watch is looked at by send and close, and close is given no time.
#[inline(never)]
fn unwatched(rt: &impl Print, level: u32) -> io::Result<()> {
    let open = in_phase(level, Phase::Open);
    open.sends(rt, "send after the watch", 1601, 0x09, b"net")?;
    open.sends(rt, "send after 5001", 6001, 0x09, b"net")?;
    for (name, phase, new_setup, reason) in [
        ("close of an open record", Phase::Open, 1, 0x1F),
        ("close before the confirm", Phase::ConfirmAwaited, 1, 0),
        (
            "close before authentication",
            Phase::AuthenticationAwaited,
            0,
            0x40,
        ),
        ("close, reason 08h", Phase::Open, 1, 0x08),
        ("close, type 2", Phase::Open, 2, 0),
    ] {
        in_phase(level, phase).closes(rt, name, new_setup, reason)?;
    }
    Ok(())
}

// A disconnect under a number, on a record that awaits its confirm.
#[inline(never)]
fn disconnected(rt: &impl Print, level: u32) -> io::Result<()> {
    for (name, number, new_setup) in [
        ("disconnect 0 before the confirm, final", 0, 0),
        ("disconnect 0 before the confirm, not final", 0, 1),
        ("disconnect 1 before the confirm, final", 1, 0),
    ] {
        let mut out = [0; LONGEST];
        let end = partner(level);
        let written = writers::write_disconnect(&mut out, end, number, new_setup, 0x07, b"");
        let telegram = Telegram::written(out, written);
        let side = in_phase(level, Phase::ConfirmAwaited);
        side.takes(rt, name, 1100, telegram.as_slice())?;
    }
    Ok(())
}

// Commands that data have and do not have, and the most net data.
#[inline(never)]
fn sent(rt: &impl Print, open: Side) -> io::Result<()> {
    for command in [0x09, 0x20, 0x89, 0x0D, 0x06, 0x40] {
        let name = format_args!("send, command {command:02X}h");
        open.sends(rt, name, 1100, command, b"net")?;
    }
    let net = [0xAA; 240];
    for n in 236..=239 {
        open.sends(rt, format_args!("send {n} bytes"), 1100, 0x09, &net[..n])?;
    }
    Ok(())
}

#[inline(never)]
pub(crate) fn rules(rt: &impl Print, level: u32) -> io::Result<()> {
    let open = in_phase(level, Phase::Open);
    lent(rt, open)?;
    unwatched(rt, level)?;
    disconnected(rt, level)?;
    sent(rt, open)
}
