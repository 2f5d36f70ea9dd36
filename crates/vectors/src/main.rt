// Every check word that SUBSET-057 prints, worked out by the library over implicit bytes and telegram as two runs, and
// the telegrams of 5.3.1 as the writers write them and the partner's check takes them. The file `stdout` beside src/
// holds the bytes as printed there: a run that writes anything else fails.
#![tactic(auto)]

use shown::{Hex, Telegram};
use std::io;
use telegram::{End, LONGEST};

// The check word over two runs at a level, six bytes at SL 4 and four at SL 2.
fn word_line(
    rt: &impl Print,
    clause: &str,
    level: u32,
    implicit: &[u8],
    telegram: &[u8],
) -> io::Result<()> {
    let word = telegram::word_of(level, implicit, telegram);
    let digits = if level == 4 { 12 } else { 8 };
    println!(rt; "{clause:<42}{word:0digits$x}")
}

// 5.3.1.7 and 5.3.1.8: the examples of point-to-point connections.
fn connections(rt: &impl Print) -> io::Result<()> {
    let rows: [(&str, u32, &[u8], &[u8]); 3] = [
        (
            "5.3.1.7    authentication, SL 4",
            4,
            &[0x0C, 0x01, 0x08, 0x03, 0x03, 0x45, 0x23, 0x01],
            &[0x68, 0x83, 0xF0, 0xCD, 0xAB, 0x89],
        ),
        (
            "5.3.1.7    its acknowledgement, SL 4",
            4,
            &[0x0C, 0x08, 0x01, 0x03, 0x03, 0xCD, 0xAB, 0x89],
            &[0xF0, 0x84, 0x68, 0x45, 0x23, 0x01],
        ),
        (
            "5.3.1.8    idle, SL 2",
            2,
            &[0x08, 0x01, 0x08, 0x09, 0x09, 0x49, 0x34, 0x60],
            &[0x31, 0x06],
        ),
    ];
    for (clause, level, implicit, telegram) in rows {
        word_line(rt, clause, level, implicit, telegram)?;
    }
    Ok(())
}

// 6.2.1.6 and the examples of 10.2 that are based on it: first the word, then both ways to validate it, at both levels.
fn multicast(rt: &impl Print) -> io::Result<()> {
    let implicit = [0x0E, 0x7F, 0x53, 0x21, 0x21];
    let sent = [
        0x03u8, 0x00, 0x0A, 0x8D, 0xEF, 0xCD, 0xAB, 0x89, 0x48, 0x96, 0x6F, 0x0C, 0x4A, 0xD9,
    ];
    for (clause, level, telegram) in [
        ("6.2.1.6    multicast data, SL 4", 4, &sent[..8]),
        ("10.2.1.2.1 whole message, SL 4 to SL 4", 4, &sent),
        ("10.2.1.2.2 whole message, SL 4 to SL 2", 2, &sent),
        ("10.2.1.3.2 last 48 bits removed, to SL 4", 4, &sent[..8]),
        ("10.2.1.3.3 last 32 bits removed, to SL 2", 2, &sent[..10]),
    ] {
        word_line(rt, clause, level, &implicit, telegram)?;
    }
    Ok(())
}

// A node of 5.3.1.6, seen from its own side.
fn node(own: u32, partner: u32, level: u32, sap: u32) -> End {
    End {
        own,
        partner,
        partner_sap: sap,
        local_sap: sap,
        level,
    }
}

// 5.3.1.7 as whole telegrams, both ways; and the idle of 5.3.1.8, which is printed with length 08h, as its writer
// writes it, with 06h. Each with what the check of its receiver finds.
fn telegrams(rt: &impl Print) -> io::Result<()> {
    let mut out = [0; LONGEST];
    let there = writers::write_authentication(&mut out, node(8, 1, 4, 3), 0x0123_4568, 0x89AB_CDEF);
    let authentication = Telegram::written(out, there);
    let back = writers::write_acknowledgement(&mut out, node(1, 8, 4, 3), 0x89AB_CDF0, 0x0123_4567);
    let acknowledgement = Telegram::written(out, back);
    let idle = writers::write_idle(&mut out, node(8, 1, 2, 9), 0x6034_4931);
    let idle = Telegram::written(out, idle);
    for (clause, telegram, receiver, expected) in [
        (
            "5.3.1.7    authentication telegram",
            authentication,
            node(1, 8, 4, 3),
            0x0123_4568,
        ),
        (
            "5.3.1.7    its acknowledgement",
            acknowledgement,
            node(8, 1, 4, 3),
            0x89AB_CDF0,
        ),
        (
            "5.3.1.8    idle telegram, length 06h",
            idle,
            node(1, 8, 2, 9),
            0x6034_4931,
        ),
    ] {
        let sent = telegram.as_slice();
        let found = checking::answer_number(checking::checked(receiver, expected, sent));
        println!(rt; "{clause:<42}{} check {found}", Hex(sent))?;
    }
    Ok(())
}

fn main(rt: HostRuntime) -> io::Result<()> {
    connections(&rt)?;
    multicast(&rt)?;
    telegrams(&rt)
}
