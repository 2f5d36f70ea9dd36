// What each call refuses.
use crate::made::{Kind, Phase, in_phase, telegram_for};
use crate::run::Side;
use link::Record;
use std::io;

// Every call on one record: those that the layer above makes, a good idle telegram of an open record, and a tick.
fn every_call(rt: &impl Print, level: u32, side: Side) -> io::Result<()> {
    let idle = telegram_for(in_phase(level, Phase::Open), Kind::Idle);
    side.opens(rt, "  open", 1100, Some(500))?;
    side.sends(rt, "  send", 1100, 0x09, b"net")?;
    side.closes(rt, "  close", 1, 0)?;
    side.takes(rt, "  received", 1100, idle.as_slice())?;
    side.ticks(rt, "  tick", 1100)?;
    Ok(())
}

#[inline(never)]
pub(crate) fn refusals(rt: &impl Print, level: u32) -> io::Result<()> {
    let open = in_phase(level, Phase::Open);
    // Every field at 0.
    let record = Record {
        phase: 0,
        ..link::fresh(0, 0, 0, 0)
    };
    let zeroed = Side {
        random: 0,
        record,
        ..open
    };
    for (name, side) in [
        ("zeroed record", zeroed),
        ("open record, buffer of 243", Side { room: 243, ..open }),
        (
            "finally closed record",
            in_phase(level, Phase::FinallyClosed),
        ),
        ("open record", open),
        ("closed record", in_phase(level, Phase::Closed)),
    ] {
        println!(rt; "{name}")?;
        every_call(rt, level, side)?;
    }
    // Telegrams of lengths that no telegram has.
    let run = [0u8; 245];
    for telegram in [&run[..0], &run[..5], &run[..6], &run[..244], &run] {
        open.takes(
            rt,
            format_args!("telegram of {}", telegram.len()),
            1100,
            telegram,
        )?;
    }
    Ok(())
}
