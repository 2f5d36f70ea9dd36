// What a call hands back, and the net data of a data event.
ghost use Rattle.std.specs.Prelude.{◌≡◌};
ghost use Rattle.node.specs.Calls.{refused_outcome, settled};
ghost use Rattle.node.specs.Plain.{plain, part_of, data_of};

use crate::{Head, Outcome, PlainOutcome};
use link::{Answer, Event, Happened, Step};
use telegram::Part;

// A refused call: the head as it was. The refusal comes as a number, since a step's does (`Answer`, the C interface).
#[tactic(auto, unfolding(crate::specs::Calls::refused_outcome))]
pub(crate) fn refused(number: u32, head: Head) -> Outcome
    ensures { result ≡ refused_outcome number head }
{
    Outcome {
        head,
        answer: Answer {
            number,
            ..Answer::default()
        },
        event: Event::Nothing,
    }
}

// What a step became for the node: where it was done, its time is the latest.
#[tactic(auto, using(ground::specs::Choice::tests), unfolding(crate::specs::Calls::settled, crate::specs::Heads::at))]
pub(crate) fn settle(step: Step, head: Head, time: u64) -> Outcome
    ensures { result ≡ settled step head time }
{
    if step.answer.number != 0 {
        return refused(step.answer.number, head);
    }
    Outcome {
        head: Head {
            latest: time,
            ..head
        },
        answer: step.answer,
        event: step.event,
    }
}

// Where the net data of an event lie in the telegram: start and count, 0 and 0 where it is no data.
fn data_part(event: Event) -> Part
    ensures { result ≡ part_of event }
{
    let Event::Data { start, count, .. } = event else {
        return Part::default();
    };
    Part { start, count }
}

// The net data of a data event, as that part of the telegram that was received. Nothing of an event that is no data,
// and of a telegram that is too short for the event.
#[tactic(auto, using(crate::proofs::Cases::none_within))]
pub fn net_data(telegram: &[u8], event: Event) -> &[u8]
    ensures { result.now ≡ data_of event telegram.now }
{
    let part = data_part(event);
    let start = part.start as usize;
    let end = start + part.count as usize;
    telegram.get(start..end).unwrap_or(&telegram[..0])
}

// The outcome as plain numbers, for C: of data, where they lie in the telegram received. The event is taken apart here
// too, by `let .. else`, since the scope names that form for the calls.
#[tactic(auto, unfolding(crate::specs::Plain::plain))]
impl From<Outcome> for PlainOutcome {
    ghost from_gives = { λ outcome numbers. numbers ≡ plain outcome };

    fn from(outcome: Outcome) -> PlainOutcome {
        let Outcome {
            head,
            answer,
            event,
        } = outcome;
        let Event::Data {
            command,
            start,
            count,
        } = event
        else {
            return PlainOutcome {
                head,
                answer,
                happened: Happened::from(event),
            };
        };
        PlainOutcome {
            head,
            answer,
            happened: Happened {
                event: 2,
                command,
                start,
                count,
                ..Happened::default()
            },
        }
    }
}
