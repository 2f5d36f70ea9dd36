// A node of two connections, and its calls, each run and shown as a line. This and cases/src/run.rt stay two: a step
// and a call are given and leave other things. Each closure has a contract: it does what `called` says of its call.
ghost use Rattle.std.specs.Prelude.{◌≡◌, []};
ghost use Rattle.node.specs.Calls.{called};
ghost use Rattle.node.specs.Calls.Call.{Open, Close, Send, Received, Tick};

use link::Record;
use node::{Head, Outcome, Route};
use shown::Telegram;
use std::io;
use telegram::LONGEST;

// The head, the table, the random number that it opens and confirms with, and how long the buffer is that its calls
// write into.
#[derive(Clone, Copy, Debug, PartialEq, Eq)]
pub(crate) struct Station {
    pub head: Head,
    pub table: [Record; 2],
    pub random: u32,
    pub room: usize,
}

impl Station {
    // Runs a call and shows it, and the net data that it hands on of the telegram that it is given. What the call
    // leaves, and the telegram that it wrote.
    fn calls<F: FnOnce(&mut [Record], &mut [u8]) -> Outcome>(
        self,
        rt: &impl Print,
        name: &str,
        given: &[u8],
        call: F,
    ) -> io::Result<(Station, Telegram)>
        requires { F.IsAlwaysCallable call }
    {
        let mut table = self.table;
        let mut bytes = [0; LONGEST];
        let Outcome {
            head,
            answer,
            event,
        } = call(&mut table, &mut bytes[..self.room.min(LONGEST)]);
        let telegram = Telegram {
            bytes,
            length: answer.length,
        };
        print!(rt;
            "{name}: {} {} latest {}",
            shown::Answer(answer),
            shown::Event(event),
            head.latest
        )?;
        let first = shown::Record(table[0]);
        let second = shown::Record(table[1]);
        println!(rt; "; first {first}; second {second}{telegram}")?;
        let net = node::net_data(given, event);
        if !net.is_empty() {
            println!(rt; "  net data {}", net.escape_ascii())?;
        }
        Ok((
            Station {
                head,
                table,
                ..self
            },
            telegram,
        ))
    }

    // Opens the connection at a place, with an idle time of 500 named.
    pub(crate) fn opens(
        self,
        rt: &impl Print,
        name: &str,
        time: u64,
        place: usize,
    ) -> io::Result<(Station, Telegram)> {
        let idle = Some(500);
        self.calls(
            rt,
            name,
            b"",
            |table, out|
                ensures { (result ≡ (called (Open place self.random idle []) self.head table.old time out.old).outcome) × ((table.new ≡ (called (Open place self.random idle []) self.head table.old time out.old).table) × (out.new ≡ (called (Open place self.random idle []) self.head table.old time out.old).out)) }
            { node::open(table, self.head, time, place, self.random, idle, b"", out) },
        )
    }

    pub(crate) fn closes(
        self,
        rt: &impl Print,
        name: &str,
        time: u64,
        place: usize,
        new_setup: u32,
    ) -> io::Result<(Station, Telegram)> {
        self.calls(
            rt,
            name,
            b"",
            |table, out|
                ensures { (result ≡ (called (Close place new_setup 0 []) self.head table.old time out.old).outcome) × ((table.new ≡ (called (Close place new_setup 0 []) self.head table.old time out.old).table) × (out.new ≡ (called (Close place new_setup 0 []) self.head table.old time out.old).out)) }
            { node::close(table, self.head, time, place, new_setup, 0, b"", out) },
        )
    }

    pub(crate) fn sends(
        self,
        rt: &impl Print,
        name: &str,
        time: u64,
        place: usize,
        command: u32,
        net: &[u8],
    ) -> io::Result<(Station, Telegram)> {
        self.calls(
            rt,
            name,
            b"",
            |table, out|
                ensures { (result ≡ (called (Send place command net.entry.now) self.head table.old time out.old).outcome) × ((table.new ≡ (called (Send place command net.entry.now) self.head table.old time out.old).table) × (out.new ≡ (called (Send place command net.entry.now) self.head table.old time out.old).out)) }
            { node::send(table, self.head, time, place, command, net, out) },
        )
    }

    pub(crate) fn ticks(
        self,
        rt: &impl Print,
        name: &str,
        time: u64,
        place: usize,
    ) -> io::Result<(Station, Telegram)> {
        self.calls(
            rt,
            name,
            b"",
            |table, out|
                ensures { (result ≡ (called (Tick place) self.head table.old time out.old).outcome) × ((table.new ≡ (called (Tick place) self.head table.old time out.old).table) × (out.new ≡ (called (Tick place) self.head table.old time out.old).out)) }
            { node::tick(table, self.head, time, place, out) },
        )
    }

    // Takes a telegram that came from this sender, with SAP 3 on both sides.
    pub(crate) fn takes(
        self,
        rt: &impl Print,
        name: &str,
        time: u64,
        sender: u32,
        telegram: &[u8],
    ) -> io::Result<(Station, Telegram)> {
        let route = Route {
            sender,
            destination_sap: 3,
            source_sap: 3,
        };
        let idle = Some(500);
        self.calls(
            rt,
            name,
            telegram,
            |table, out|
                ensures { (result ≡ (called (Received route self.random idle telegram.entry.now []) self.head table.old time out.old).outcome) × ((table.new ≡ (called (Received route self.random idle telegram.entry.now []) self.head table.old time out.old).table) × (out.new ≡ (called (Received route self.random idle telegram.entry.now []) self.head table.old time out.old).out)) }
            {
                node::received(
                    table,
                    self.head,
                    time,
                    route,
                    self.random,
                    idle,
                    telegram,
                    b"",
                    out,
                )
            },
        )
    }
}
