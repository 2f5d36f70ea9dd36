// The idle time of an opening and of a confirm: not named, named 0, named 1000, and one that is no multiple of 100, as C
// names it.
use crate::made::{Kind, Phase, in_phase, telegram_for};
use std::io;

#[inline(never)]
pub(crate) fn idle_times(rt: &impl Print, level: u32) -> io::Result<()> {
    let idle_times = [
        ("none", link::idle_time_by(0, 0)),
        ("0", link::idle_time_by(1, 0)),
        ("1000", link::idle_time_by(1, 1000)),
        ("150", link::idle_time_by(1, 150)),
    ];
    let side = in_phase(level, Phase::Closed);
    for (named, idle) in idle_times {
        side.opens(rt, format_args!("open, {named} named"), 1000, idle)?;
    }
    // A request of node 1's, confirmed by node 8.
    let request = telegram_for(side, Kind::Request);
    for (named, idle) in idle_times {
        let name = format_args!("confirm, {named} named");
        side.takes_lent(rt, name, 1000, request.as_slice(), idle, b"")?;
    }
    Ok(())
}
