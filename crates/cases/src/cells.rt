// The cells of the table of 5.5.1.5: in each phase each telegram of the partner's, in time.
use crate::made::{Kind, Phase, in_phase, telegram_for};
use std::io;

const PHASES: [Phase; 5] = [
    Phase::Closed,
    Phase::ConfirmAwaited,
    Phase::AuthenticationAwaited,
    Phase::AcknowledgementAwaited,
    Phase::Open,
];

const KINDS: [Kind; 10] = [
    Kind::Request,
    Kind::Confirm,
    Kind::Authentication,
    Kind::Acknowledgement,
    Kind::Disconnect,
    Kind::Idle,
    Kind::Data,
    Kind::LateIdle,
    Kind::StrangeAuthentication,
    Kind::StrangeAcknowledgement,
];

#[inline(never)]
pub(crate) fn cells(rt: &impl Print, level: u32) -> io::Result<()> {
    for phase in PHASES {
        for kind in KINDS {
            let side = in_phase(level, phase);
            let telegram = telegram_for(side, kind);
            let cell = format_args!("phase {} takes {}", phase as u32, kind as u32);
            side.takes(rt, cell, 1100, telegram.as_slice())?;
        }
    }
    Ok(())
}
