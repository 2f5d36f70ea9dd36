// Each refusal of the calls, and the first of several: a line each, and no table of rows, since the calls differ in
// what they are given.
use crate::cards::module;
use crate::station::Station;
use std::io;

pub(crate) fn refusals(rt: &impl Print, level: u32) -> io::Result<()> {
    let fresh = module(8, level);
    let (asking, _) = fresh.opens(rt, "opens", 1000, 0)?;
    of_table(rt, fresh, asking)?;
    of_place(rt, asking)?;
    of_record(rt, asking)?;
    several(rt, asking)
}

// What concerns the table, the buffer and the time.
fn of_table(rt: &impl Print, fresh: Station, asking: Station) -> io::Result<()> {
    let alike = Station {
        table: [fresh.table[0]; 2],
        ..fresh
    };
    let cramped = Station { room: 243, ..fresh };
    alike.opens(rt, "1 two records alike", 1000, 0)?;
    cramped.opens(rt, "4 no room", 1000, 0)?;
    asking.opens(rt, "7 time goes back", 999, 1)?;
    Ok(())
}

// What concerns the telegram and the record's place.
fn of_place(rt: &impl Print, asking: Station) -> io::Result<()> {
    asking.takes(rt, "6 telegram of five bytes", 1000, 1, b"short")?;
    asking.takes(rt, "2 a sender in no record", 1000, 3, b"six...")?;
    asking.opens(rt, "2 a place past the table", 1000, 2)?;
    Ok(())
}

// What concerns the record.
fn of_record(rt: &impl Print, asking: Station) -> io::Result<()> {
    let (ended, _) = asking.closes(rt, "closes finally", 1000, 0, 0)?;
    ended.opens(rt, "8 finally closed", 1000, 0)?;
    asking.opens(rt, "3 not closed", 1000, 0)?;
    asking.closes(rt, "5 a type that there is not", 1000, 0, 2)?;
    Ok(())
}

// Several at once: the first in the order.
fn several(rt: &impl Print, asking: Station) -> io::Result<()> {
    let cramped = Station {
        room: 243,
        ..asking
    };
    cramped.opens(rt, "4, 7 and 2 at once", 999, 2)?;
    asking.opens(rt, "7 and 2 at once", 999, 2)?;
    asking.sends(rt, "3 and 5 at once", 1000, 1, 0x08, b"")?;
    Ok(())
}
