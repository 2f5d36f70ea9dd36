// The last moment that is in time and the first that is not, of each wait, of the watch, and of an idle telegram of
// ours.
use crate::made::{Kind, Phase, after, in_phase, telegram_for};
use std::io;

// The telegram awaited, in time and too late; then a tick in its place.
#[inline(never)]
fn waits(rt: &impl Print, level: u32) -> io::Result<()> {
    let rows = [
        ("confirm", Phase::ConfirmAwaited, Kind::Confirm),
        (
            "authentication",
            Phase::AuthenticationAwaited,
            Kind::Authentication,
        ),
        (
            "acknowledgement",
            Phase::AcknowledgementAwaited,
            Kind::Acknowledgement,
        ),
    ];
    for (awaited, phase, kind) in rows {
        let side = in_phase(level, phase);
        let telegram = telegram_for(side, kind);
        for gap in [5000, 5001] {
            let name = format_args!("{awaited} after {gap}");
            side.takes(rt, name, after(gap), telegram.as_slice())?;
        }
    }
    for (awaited, phase, _) in rows {
        for gap in [5000, 5001] {
            let name = format_args!("tick, {awaited} awaited for {gap}");
            in_phase(level, phase).ticks(rt, name, after(gap))?;
        }
    }
    Ok(())
}

// The watch of an open record, and when an idle telegram of ours is due.
#[inline(never)]
fn watch(rt: &impl Print, level: u32) -> io::Result<()> {
    let open = in_phase(level, Phase::Open);
    let data = telegram_for(open, Kind::Data);
    for gap in [600, 601] {
        let name = format_args!("data after {gap}, watched");
        open.takes(rt, name, after(gap), data.as_slice())?;
    }
    for (gap, what) in [
        (249, "half less one"),
        (250, "half"),
        (600, "watched"),
        (601, "watched"),
    ] {
        open.ticks(rt, format_args!("tick after {gap}, {what}"), after(gap))?;
    }
    Ok(())
}

#[inline(never)]
pub(crate) fn limits(rt: &impl Print, level: u32) -> io::Result<()> {
    waits(rt, level)?;
    watch(rt, level)
}
