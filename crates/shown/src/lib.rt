// What the programs print, word by word: runs of bytes, telegrams, answers, events and records. It is no part of the
// library.
#![tactic(auto)]

ghost use Rattle.std.specs.Prelude.{◌≡◌, min, take};

use std::fmt;
use telegram::{LONGEST, Written};

// A run of bytes, in hexadecimal.
#[derive(Clone, Copy, Debug, PartialEq, Eq)]
pub struct Hex<'a>(pub &'a [u8]);

impl fmt::Display for Hex<'_> {
    fn fmt<W: fmt::Write>(&self, f: &mut fmt::Formatter<W>) -> fmt::Result {
        for byte in self.0 {
            write!(f, "{byte:02x}")?;
        }
        Ok(())
    }
}

// A telegram: the front of the buffer that it was written into, since nothing here has a heap.
#[derive(Clone, Copy, Debug, PartialEq, Eq)]
pub struct Telegram {
    pub bytes: [u8; LONGEST],
    pub length: u32,
}

impl Telegram {
    // What a writer wrote into a buffer, by what it answered.
    pub fn written(bytes: [u8; LONGEST], written: Written) -> Telegram
        ensures { (result.bytes ≡ bytes) × (result.length ≡ written.length) }
    {
        Telegram {
            bytes,
            length: written.length,
        }
    }

    pub fn as_slice(&self) -> &[u8]
        ensures { result.now ≡ take (min self.now.length 244) self.now.bytes }
    {
        let length = self.length as usize;
        &self.bytes[..length.min(LONGEST)]
    }
}

// The longest telegram whose bytes are printed.
const SHORT: usize = 30;

// The bytes of a short telegram; of a longer one, or where none was written, nothing.
impl fmt::Display for Telegram {
    fn fmt<W: fmt::Write>(&self, f: &mut fmt::Formatter<W>) -> fmt::Result {
        let telegram = self.as_slice();
        if telegram.is_empty() || SHORT < telegram.len() {
            return Ok(());
        }
        write!(f, " bytes {}", Hex(telegram))
    }
}

// An answer: its number, the telegram written and its length.
#[derive(Clone, Copy, Debug, PartialEq, Eq)]
pub struct Answer(pub link::Answer);

impl fmt::Display for Answer {
    fn fmt<W: fmt::Write>(&self, f: &mut fmt::Formatter<W>) -> fmt::Result {
        let link::Answer {
            number,
            telegram,
            length,
        } = self.0;
        write!(f, "answer {number} telegram {telegram} of {length}")
    }
}

// An event, as C is told of it: by its number, and the values that it has.
#[derive(Clone, Copy, Debug, PartialEq, Eq)]
pub struct Event(pub link::Event);

impl fmt::Display for Event {
    fn fmt<W: fmt::Write>(&self, f: &mut fmt::Formatter<W>) -> fmt::Result {
        let link::Happened {
            event,
            command,
            start,
            count,
            reason,
            last,
        } = link::Happened::from(self.0);
        write!(f, "event {event}")?;
        match self.0 {
            link::Event::Nothing | link::Event::Opened => Ok(()),
            link::Event::Data { .. } => {
                write!(f, " command {command} start {start} count {count}")
            }
            link::Event::Closed { .. } => write!(f, " reason {reason} last {last}"),
        }
    }
}

// What a record is.
#[derive(Clone, Copy, Debug, PartialEq, Eq)]
pub struct Record(pub link::Record);

impl fmt::Display for Record {
    fn fmt<W: fmt::Write>(&self, f: &mut fmt::Formatter<W>) -> fmt::Result {
        let link::Record {
            phase,
            sending,
            expected,
            declared,
            watched,
            ..
        } = self.0;
        write!(
            f,
            "phase {phase} sending {sending:08x} expected {expected:08x} declared {declared} watched {watched}"
        )
    }
}
