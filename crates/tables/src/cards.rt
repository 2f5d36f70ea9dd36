// An on-board computer with two modules that use the same SAPs and the same numbers: both connections set up, data from
// each under its own name, then the faults of a workshop: a card that answers from the other's address, and two records
// in each other's places.
use crate::station::Station;
use std::io;
use telegram::LONGEST;

// A node with its connections to two partners.
fn node_of(own: u32, partners: [u32; 2], level: u32, random: u32) -> Station {
    Station {
        head: node::new_head(own),
        table: [
            link::fresh(partners[0], 3, 3, level),
            link::fresh(partners[1], 3, 3, level),
        ],
        random,
        room: LONGEST,
    }
}

// A module: its connection to the computer, and another that is never used.
pub(crate) fn module(own: u32, level: u32) -> Station {
    node_of(own, [1, 2], level, 0x0123_4567)
}

// A module opens its connection to the computer, from this time on. The computer and the module after it.
fn set_up(
    rt: &impl Print,
    computer: Station,
    module: Station,
    start: u64,
) -> io::Result<(Station, Station)> {
    let own = computer.head.own;
    let sender = module.head.own;
    let (module, request) = module.opens(rt, "module opens", start, 0)?;
    let (computer, confirm) = computer.takes(
        rt,
        "computer confirms",
        start,
        sender,
        request.as_slice(),
    )?;
    let (module, authentication) = module.takes(
        rt,
        "module authenticates",
        start,
        own,
        confirm.as_slice(),
    )?;
    let (computer, acknowledgement) = computer.takes(
        rt,
        "computer acknowledges",
        start,
        sender,
        authentication.as_slice(),
    )?;
    let (module, _) = module.takes(rt, "module is open", start, own, acknowledgement.as_slice())?;
    Ok((computer, module))
}

// Data of module 8, taken from its own address, from the other's, and where the computer's records have changed places.
fn data(rt: &impl Print, computer: Station, module: Station) -> io::Result<()> {
    let (_, data) = module.sends(rt, "module 8 sends data", 1300, 0, 0x09, b"from eight")?;
    let [first, second] = computer.table;
    let exchanged = Station {
        table: [second, first],
        ..computer
    };
    for (name, computer, sender) in [
        ("computer takes it from 8", computer, 8),
        ("computer, card 8 in the place of 9", computer, 9),
        ("computer, records exchanged", exchanged, 8),
    ] {
        computer.takes(rt, name, 1300, sender, data.as_slice())?;
    }
    Ok(())
}

// Idle on the computer's second connection: not before half of the time declared. Then the second connection is closed
// finally; the first runs out of its watch.
fn idle(rt: &impl Print, computer: Station, module: Station) -> io::Result<()> {
    let (computer, _) = computer.ticks(rt, "computer ticks 9 early", 1349, 1)?;
    let (computer, idle) = computer.ticks(rt, "computer ticks 9", 1350, 1)?;
    let (module, _) = module.takes(rt, "module 9 takes idle", 1350, 1, idle.as_slice())?;
    let (computer, disconnect) = computer.closes(rt, "computer closes 9 finally", 1400, 1, 0)?;
    module.takes(
        rt,
        "module 9 is closed finally",
        1400,
        1,
        disconnect.as_slice(),
    )?;
    computer.ticks(rt, "computer ticks 8 late", 1601, 0)?;
    Ok(())
}

pub(crate) fn cards(rt: &impl Print, level: u32) -> io::Result<()> {
    // The computer, node 1, with its connections to the modules 8 and 9.
    let computer = node_of(1, [8, 9], level, 0x89AB_CDEF);
    let (computer, module_8) = set_up(rt, computer, module(8, level), 1000)?;
    let (computer, module_9) = set_up(rt, computer, module(9, level), 1100)?;
    data(rt, computer, module_8)?;
    idle(rt, computer, module_9)
}
