// The phases of a connection, which are the columns of the table (5.5.1.5), and their numbers in a record. A zeroed
// record has none of them.
ghost use Rattle.std.specs.Prelude.{◌≡◌};
ghost use Rattle.link.specs.Named.{phase_number, column};

#[derive(Clone, Copy, Debug, PartialEq, Eq)]
pub(crate) enum Phase {
    Closed = 1,
    ConfirmAwaited = 2,
    AuthenticationAwaited = 3,
    AcknowledgementAwaited = 4,
    Open = 5,
    FinallyClosed = 6,
}

// Their numbers, for whoever reads or fills a record.
pub const CLOSED: u32 = Phase::Closed as u32;

pub const CONFIRM_AWAITED: u32 = Phase::ConfirmAwaited as u32;

pub const AUTHENTICATION_AWAITED: u32 = Phase::AuthenticationAwaited as u32;

pub const ACKNOWLEDGEMENT_AWAITED: u32 = Phase::AcknowledgementAwaited as u32;

pub const OPEN: u32 = Phase::Open as u32;

pub const FINALLY_CLOSED: u32 = Phase::FinallyClosed as u32;

impl Phase {
    // The phase of a record's number. The steps refuse a record with any other number before they ask for its phase;
    // here 0 falls to the first column and a number above to the last, so that each number has a phase.
    pub(crate) fn of(phase: u32) -> Phase
        ensures { phase_number result ≡ column phase }
    {
        match phase {
            ..=CLOSED => Phase::Closed,
            CONFIRM_AWAITED => Phase::ConfirmAwaited,
            AUTHENTICATION_AWAITED => Phase::AuthenticationAwaited,
            ACKNOWLEDGEMENT_AWAITED => Phase::AcknowledgementAwaited,
            OPEN => Phase::Open,
            FINALLY_CLOSED.. => Phase::FinallyClosed,
        }
    }
}
