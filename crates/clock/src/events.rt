// What a message did, and its number for C.
ghost use Rattle.std.specs.Prelude.{◌≡◌};
ghost use Rattle.clock.specs.Events.{number_of};

// What a message did to the clock.
#[derive(Clone, Copy, Debug, PartialEq, Eq)]
pub enum Event {
    // No pair: the message is kept for the next one.
    Kept,
    // One pair more, and not yet sixteen.
    Paired,
    // The sixteenth pair.
    NowSynchronised,
    // One pair more, and all tests passed.
    Resynchronised,
    // Synchronised, and the number is not above the last: not looked at.
    Dropped,
    // Isolated: not looked at.
    StaysIsolated,
    Failed(FailedTest),
}

// The test that failed, by its number.
#[derive(Clone, Copy, Debug, PartialEq, Eq)]
pub enum FailedTest {
    // Unsynchronised, and the number is not above the last.
    NotAbove = 101,
    // 7.4.1.5.1
    NoFactor = 102,
    // 7.4.1.6.1
    TooLate = 103,
    // 7.4.2.2.1, 7.4.3.3
    ReferenceNotLater = 104,
    // 7.4.2.2.2, 7.4.3.4
    LocalNotLater = 105,
    // 7.4.3.5
    ShortTerm = 106,
    // 7.4.3.6
    TooFew = 107,
    // 7.4.3.7
    LongTerm = 108,
}

impl From<Event> for u32 {
    ghost from_gives = { λ event number. number ≡ number_of event };

    fn from(event: Event) -> u32 {
        match event {
            Event::Kept => 0,
            Event::Paired => 1,
            Event::NowSynchronised => 2,
            Event::Resynchronised => 3,
            Event::Dropped => 4,
            Event::StaysIsolated => 5,
            Event::Failed(test) => test as u32,
        }
    }
}
