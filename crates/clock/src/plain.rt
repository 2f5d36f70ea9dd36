// What is read and what is asked for as plain numbers, for C: 0 and the value, or the number of why there is none, and
// a value of 0.
ghost use Rattle.std.specs.Prelude.{◌≡◌};
ghost use Rattle.clock.specs.Plain.{plain_reading, plain_factor, plain_time};

use crate::{Message, PlainFactor, PlainReading, PlainTime, RefTime, Unreadable};

// Answers: done, and fewer than sixteen pairs.
const DONE: u32 = 0;

const TOO_FEW_PAIRS: u32 = 9;

impl From<Result<Message, Unreadable>> for PlainReading {
    ghost from_gives = { λ read plain. plain ≡ plain_reading read };

    fn from(read: Result<Message, Unreadable>) -> PlainReading {
        match read {
            Ok(message) => PlainReading {
                answer: DONE,
                message,
            },
            Err(reason) => PlainReading {
                answer: reason as u32,
                message: Message {
                    number: 0,
                    reference: RefTime(0),
                },
            },
        }
    }
}

impl From<Option<u32>> for PlainFactor {
    ghost from_gives = { λ factor plain. plain ≡ plain_factor factor };

    fn from(factor: Option<u32>) -> PlainFactor {
        match factor {
            Some(factor) => PlainFactor {
                answer: DONE,
                factor,
            },
            None => PlainFactor {
                answer: TOO_FEW_PAIRS,
                factor: 0,
            },
        }
    }
}

impl From<Option<RefTime>> for PlainTime {
    ghost from_gives = { λ time plain. plain ≡ plain_time time };

    fn from(time: Option<RefTime>) -> PlainTime {
        match time {
            Some(time) => PlainTime { answer: DONE, time },
            None => PlainTime {
                answer: TOO_FEW_PAIRS,
                time: RefTime(0),
            },
        }
    }
}
