// The calls over a table, run at both levels: an on-board computer and two modules, the cards exchanged, the places
// exchanged, and each refusal. A line is a call: its answer, the telegram written and its length, the event, the
// latest time, what each of the two records is afterwards, and the bytes of a short telegram. The file `stdout` beside
// src/ holds what the papers ask for: a run that writes anything else fails. The check words in it are the library's
// own. The steps of one connection are run by the program cases.
#![tactic(auto)]

mod cards;
mod refusals;
mod station;

use std::io;

fn main(rt: HostRuntime) -> io::Result<()> {
    for level in [4, 2] {
        println!(rt; "A computer and two modules, level {level}")?;
        cards::cards(&rt, level)?;
        println!(rt; "Refusals of the calls, level {level}")?;
        refusals::refusals(&rt, level)?;
    }
    Ok(())
}
