// The steps of one connection, run at both levels: a whole set-up and a talk from both sides, the wrap of the numbers,
// the idle times that a caller names, the limits of waits and watch, the rules that are easy to miss, the refusals, and
// the cells of the table of 5.5.1.5. A line is a step: its answer, the telegram written and its length, the event, what
// the record is afterwards, and the bytes of a short telegram. The file `stdout` beside src/ holds what the papers ask
// for: a run that writes anything else fails. The check words in it are the library's own, but for the two that 5.3.1.7
// prints. The calls over a table are run by the program tables.
#![tactic(auto)]

mod cells;
mod limits;
mod made;
mod named;
mod refusals;
mod rules;
mod run;
mod talk;

use std::io;

// What the steps below it are of.
#[inline(never)]
fn title(rt: &impl Print, text: &str, level: u32) -> io::Result<()> {
    println!(rt; "{text}, level {level}")
}

fn main(rt: HostRuntime) -> io::Result<()> {
    for level in [4, 2] {
        title(&rt, "Set-up and talk, random numbers of 5.3.1.6", level)?;
        talk::conversation(&rt, level, 0x0123_4567, 0x89AB_CDEF)?;
        title(&rt, "Set-up and talk, both random numbers FFFFFFFFh", level)?;
        talk::conversation(&rt, level, 0xFFFF_FFFF, 0xFFFF_FFFF)?;
        title(&rt, "Idle times named and not", level)?;
        named::idle_times(&rt, level)?;
        title(&rt, "Limits of waits and watch", level)?;
        limits::limits(&rt, level)?;
        title(&rt, "Rules that are easy to miss", level)?;
        rules::rules(&rt, level)?;
        title(&rt, "Refusals", level)?;
        refusals::refusals(&rt, level)?;
        title(&rt, "Cells of 5.5.1.5", level)?;
        cells::cells(&rt, level)?;
    }
    Ok(())
}
