// What C says and is told in plain numbers: an idle time, and what happened.
ghost use Rattle.std.specs.Prelude.{◌≡◌};
ghost use Rattle.link.specs.Plain.{idle_time_by, happened, plain};

use crate::{Event, Happened, Step, Stepped};

// An idle time is named where the flag is not 0. This is no `From`: an `Option<u32>` is not ours.
#[tactic(auto, unfolding(crate::specs::Plain::idle_time_by, ground::specs::Choice::pick))]
pub fn idle_time_by(named: u32, time: u32) -> Option<u32>
    ensures { result ≡ idle_time_by named time }
{
    (named != 0).then_some(time)
}

// What happened, as plain numbers.
#[tactic(auto, unfolding(ground::specs::Choice::pick))]
impl From<Event> for Happened {
    ghost from_gives = { λ event numbers. numbers ≡ happened event };

    fn from(event: Event) -> Happened {
        let unused = Happened::default();
        match event {
            Event::Nothing => unused,
            Event::Opened => Happened { event: 1, ..unused },
            Event::Data {
                command,
                start,
                count,
            } => Happened {
                event: 2,
                command,
                start,
                count,
                ..unused
            },
            Event::Closed { reason, last } => Happened {
                event: 3,
                reason,
                last: last as u32,
                ..unused
            },
        }
    }
}

// A step as plain numbers.
#[tactic(auto, unfolding(crate::specs::Plain::plain))]
impl From<Step> for Stepped {
    ghost from_gives = { λ step numbers. numbers ≡ plain step };

    fn from(step: Step) -> Stepped {
        Stepped {
            record: step.record,
            answer: step.answer,
            happened: Happened::from(step.event),
        }
    }
}
