// Records in each phase, and telegrams of each kind, for node 8 and its partner node 1.
use crate::run::Side;
use link::Record;
use shown::Telegram;
use telegram::{End, LONGEST};

// The random numbers of 5.3.1.6: node 8's and node 1's.
const OURS: u32 = 0x0123_4567;

const THEIRS: u32 = 0x89AB_CDEF;

// When the records made here last sent and took.
const THEN: u64 = 1000;

// A time that is so much later.
pub(crate) fn after(gap: u32) -> u64 {
    THEN + u64::from(gap)
}

// The phases by their numbers in a record: to who calls link a phase is a number, and its `Phase` is its own.
#[derive(Clone, Copy, Debug, PartialEq, Eq)]
pub(crate) enum Phase {
    Closed = link::CLOSED as isize,
    ConfirmAwaited = link::CONFIRM_AWAITED as isize,
    AuthenticationAwaited = link::AUTHENTICATION_AWAITED as isize,
    AcknowledgementAwaited = link::ACKNOWLEDGEMENT_AWAITED as isize,
    Open = link::OPEN as isize,
    FinallyClosed = link::FINALLY_CLOSED as isize,
}

// Telegrams of the partner's. Those up to data are good, and an answer names them by these numbers. The late idle
// telegram is 256 numbers too late, so that its check word fails; the last two are from a random number that is not
// ours.
#[derive(Clone, Copy, Debug, PartialEq, Eq)]
pub(crate) enum Kind {
    Request = 1,
    Confirm,
    Authentication,
    Acknowledgement,
    Disconnect,
    Idle,
    Data,
    LateIdle,
    StrangeAuthentication,
    StrangeAcknowledgement,
}

// The two nodes, closed: node 8 with its partner 1, node 1 with its partner 8.
pub(crate) fn closed(own: u32, partner: u32, level: u32, random: u32) -> Side {
    Side {
        own,
        random,
        record: link::fresh(partner, 3, 3, level),
        room: LONGEST,
    }
}

// Node 8 with its record in a phase.
pub(crate) fn in_phase(level: u32, phase: Phase) -> Side {
    let side = closed(8, 1, level, OURS);
    let fresh = Record {
        phase: phase as u32,
        ..side.record
    };
    let asked = Record {
        sending: OURS + 1,
        declared: 500,
        sent_at: THEN,
        ..fresh
    };
    let answered = Record {
        expected: THEIRS + 1,
        watched: 600,
        taken_at: THEN,
        ..asked
    };
    let record = match phase {
        Phase::Closed | Phase::FinallyClosed => fresh,
        Phase::ConfirmAwaited => asked,
        Phase::AuthenticationAwaited => answered,
        Phase::AcknowledgementAwaited | Phase::Open => Record {
            sending: OURS + 2,
            ..answered
        },
    };
    Side { record, ..side }
}

// Node 1's end, the mirror of node 8's.
pub(crate) fn partner(level: u32) -> End {
    End {
        own: 1,
        partner: 8,
        partner_sap: 3,
        local_sap: 3,
        level,
    }
}

// The partner's telegram of a kind, under the number that the record expects.
pub(crate) fn telegram_for(side: Side, kind: Kind) -> Telegram {
    let Record {
        level,
        expected,
        ..
    } = side.record;
    let end = partner(level);
    let mut out = [0; LONGEST];
    let written = match kind {
        Kind::Request => writers::write_request(&mut out, end, THEIRS, 700, b""),
        Kind::Confirm => writers::write_confirm(&mut out, end, THEIRS, 700, b""),
        Kind::Authentication => writers::write_authentication(&mut out, end, expected, OURS),
        Kind::Acknowledgement => writers::write_acknowledgement(&mut out, end, expected, OURS),
        Kind::Disconnect => writers::write_disconnect(&mut out, end, expected, 1, 0x21, b""),
        Kind::Idle => writers::write_idle(&mut out, end, expected),
        Kind::Data => writers::write_data(&mut out, end, expected, 0x09, b"net"),
        Kind::LateIdle => writers::write_idle(&mut out, end, expected.wrapping_add(256)),
        Kind::StrangeAuthentication => writers::write_authentication(
            &mut out, end, expected, THEIRS,
        ),
        Kind::StrangeAcknowledgement => writers::write_acknowledgement(
            &mut out, end, expected, THEIRS,
        ),
    };
    Telegram::written(out, written)
}
