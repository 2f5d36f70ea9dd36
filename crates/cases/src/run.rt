// The five steps, each run and shown as a line.
use link::{Record, Step};
use shown::Telegram;
use std::{fmt, io};
use telegram::LONGEST;

// A node's own address, the random number that it opens and confirms with, its record, and how long the buffer is that
// its steps write into.
#[derive(Clone, Copy, Debug, PartialEq, Eq)]
pub(crate) struct Side {
    pub own: u32,
    pub random: u32,
    pub record: Record,
    pub room: usize,
}

impl Side {
    // Runs a step and shows it. What the step leaves, and the telegram that it wrote.
    fn runs<F: FnOnce(&mut [u8]) -> Step>(
        self,
        rt: &impl Print,
        name: impl fmt::Display + Drop,
        step: F,
    ) -> io::Result<(Side, Telegram)>
        requires { F.IsAlwaysCallable step }
    {
        let mut telegram = Telegram {
            bytes: [0; LONGEST],
            length: 0,
        };
        let Step {
            record,
            answer,
            event,
        } = step(&mut telegram.bytes[..self.room.min(LONGEST)]);
        telegram.length = answer.length;
        let answer = shown::Answer(answer);
        let event = shown::Event(event);
        let left = shown::Record(record);
        println!(rt; "{name}: {answer} {event} {left}{telegram}")?;
        Ok((Side { record, ..self }, telegram))
    }

    pub(crate) fn opens(
        self,
        rt: &impl Print,
        name: impl fmt::Display + Drop,
        time: u64,
        idle: Option<u32>,
    ) -> io::Result<(Side, Telegram)> {
        self.runs(rt, name, |out| {
            link::open(self.record, self.own, time, self.random, idle, b"", out)
        })
    }

    pub(crate) fn closes(
        self,
        rt: &impl Print,
        name: impl fmt::Display + Drop,
        new_setup: u32,
        reason: u32,
    ) -> io::Result<(Side, Telegram)> {
        self.runs(rt, name, |out| {
            link::close(self.record, self.own, new_setup, reason, b"", out)
        })
    }

    pub(crate) fn sends(
        self,
        rt: &impl Print,
        name: impl fmt::Display + Drop,
        time: u64,
        command: u32,
        net: &[u8],
    ) -> io::Result<(Side, Telegram)> {
        self.runs(rt, name, |out| {
            link::send(self.record, self.own, time, command, net, out)
        })
    }

    pub(crate) fn ticks(
        self,
        rt: &impl Print,
        name: impl fmt::Display + Drop,
        time: u64,
    ) -> io::Result<(Side, Telegram)> {
        self.runs(rt, name, |out| link::tick(self.record, self.own, time, out))
    }

    // Takes a telegram, and lends what a confirm would need.
    pub(crate) fn takes_lent(
        self,
        rt: &impl Print,
        name: impl fmt::Display + Drop,
        time: u64,
        telegram: &[u8],
        idle: Option<u32>,
        net: &[u8],
    ) -> io::Result<(Side, Telegram)> {
        self.runs(rt, name, |out| {
            link::received(
                self.record,
                self.own,
                time,
                self.random,
                idle,
                telegram,
                net,
                out,
            )
        })
    }

    // The same with an idle time of 500 named and no net data lent.
    pub(crate) fn takes(
        self,
        rt: &impl Print,
        name: impl fmt::Display + Drop,
        time: u64,
        telegram: &[u8],
    ) -> io::Result<(Side, Telegram)> {
        self.takes_lent(rt, name, time, telegram, Some(500), b"")
    }
}
