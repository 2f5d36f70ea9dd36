// One writer for each telegram. Each writes at the front of the lent buffer and leaves the bytes behind the telegram as
// they were; when it refuses, it leaves the whole buffer as it was. Types, reasons and levels are numbers, as C hands
// them over: any may come, and what is not allowed is refused.
ghost use Rattle.std.specs.Prelude.{◌≡◌, ◌+◌, ◌<◌, ◌≤◌, [], ◌∷◌, true, length};
ghost use Rattle.telegram.specs.Levels.{word_length};
ghost use Rattle.telegram.specs.Layout.{layout, field_bytes};
ghost use Rattle.telegram.specs.Telegrams.{body, sealed, version_and_bus, authentication_number};
ghost use Rattle.telegram.specs.Refusals.{answered};
ghost use Rattle.telegram.specs.Writers.{answer_of, left_by, unless, refusal, connect_allowed, disconnect_allowed, data_allowed};
ghost use Rattle.telegram.specs.Writers.{writes_request, writes_confirm, writes_authentication, writes_acknowledgement};
ghost use Rattle.telegram.specs.Writers.{writes_disconnect, writes_idle, writes_data};
ghost use Rattle.writers.specs.Puts.{Suits, told, puts, puts_connect, puts_number};
ghost use Rattle.telegram.specs.Writers.Outcome.{wrote};

use crate::put::{copy_at, put_word};
use telegram::{
    ACKNOWLEDGEMENT, AUTHENTICATION, CONFIRM, DISCONNECT, End, IDLE, Kind, LONGEST, REQUEST,
    Refusal, Written, added_number, good_idle, good_type, in_range, is_data, listed_reason,
    most_net, sending_bytes, top_bits, word_length,
};

// The version that we write, and the dual bus byte.
const VERSION_X: u8 = 3;

const VERSION_Y: u8 = 0;

const VERSION_Z: u8 = 0;

const DUAL_BUS: u8 = 0;

// What the caller is told, in the form of the C interface: the length written, or the refusal's number and 0. It is no
// `From`, since both types are of other crates.
fn told(outcome: Result<u32, Refusal>) -> Written
    ensures { result ≡ told outcome }
{
    match outcome {
        Ok(length) => Written { answer: 0, length },
        Err(refusal) => Written {
            answer: refusal as u32,
            length: 0,
        },
    }
}

// The first refusal that holds is the answer.
#[tactic(auto, using(ground::specs::Choice::tests), unfolding(telegram::specs::Writers::refusal))]
fn permit(end: End, room: usize, allowed: bool) -> Result<(), Refusal>
    ensures { answered result ≡ refusal end room allowed }
{
    if !in_range(end) {
        return Err(Refusal::OutOfRange);
    }
    if room < LONGEST {
        return Err(Refusal::NoRoom);
    }
    if !allowed {
        return Err(Refusal::BadValue);
    }
    Ok(())
}

// Writes a telegram by the command's low six bits, the bytes of its fixed fields, and its net data. Its length comes
// back.
#[tactic(auto, using(telegram::proofs::Widths::top_small))]
fn put_telegram(out: &mut [u8], end: End, number: u32, low: u32, fields: &[u8], net: &[u8]) -> u32
    requires { (244 ≤ length out.old) × Suits end low fields.now net.now }
    ensures { (result ≡ length (sealed end number (body end.level number low fields.now net.now))) × (out.new ≡ left_by (wrote (sealed end number (body end.level number low fields.now net.now))) out.old) }
{
    let command = top_bits(end.level) * 64 + low;
    // The lowest byte: `to_le_bytes()[0]` would say no more.
    let head = [(number % 256) as u8, command as u8];
    let behind = 2 + fields.len();
    let n = behind + net.len();
    let count = n + word_length(end.level);
    copy_at(out, 0, &head);
    copy_at(out, 2, fields);
    copy_at(out, behind, net);
    let implicit = sending_bytes(end, number, count);
    put_word(out, n, end.level, &implicit);
    count as u32
}

// Writes such a telegram, or leaves the buffer as it is where there is a refusal.
#[tactic(auto, using(telegram::proofs::Refusals::clear))]
fn put(
    out: &mut [u8],
    end: End,
    number: u32,
    low: u32,
    allowed: bool,
    fields: &[u8],
    net: &[u8],
) -> Result<u32, Refusal>
    requires { allowed ≡ true → Suits end low fields.now net.now }
    ensures { (told result ≡ answer_of (puts end number low allowed fields.now net.now out.old)) × (out.new ≡ left_by (puts end number low allowed fields.now net.now out.old) out.old) }
{
    permit(end, out.len(), allowed)?;
    Ok(put_telegram(out, end, number, low, fields, net))
}

// The fixed fields of a connect request or confirm: random number, idle time, version, dual bus.
fn connect_fields(random: u32, time: u32) -> [u8; 10]
    ensures { result ≡ field_bytes (layout Kind.Request) (random ∷ time ∷ version_and_bus) }
{
    let [first, second, third, fourth] = random.to_le_bytes();
    let [low, high, ..] = time.to_le_bytes();
    [
        first, second, third, fourth, low, high, VERSION_X, VERSION_Y, VERSION_Z, DUAL_BUS,
    ]
}

// The random number received at set-up, changed as the level asks (5.1.4).
pub fn authentication_of(level: u32, received: u32) -> u32
    ensures { result ≡ authentication_number level received }
{
    received.wrapping_add(added_number(level))
}

// Whether a connect request or confirm may carry these values.
#[tactic(auto, using(ground::specs::Choice::tests), unfolding(telegram::specs::Writers::connect_allowed))]
pub fn connect_allowed(time: u32, count: usize, level: u32) -> bool
    ensures { result ≡ connect_allowed time count level }
{
    good_idle(time) && count <= most_net(Kind::Request, level)
}

// Whether a disconnect may carry these values.
#[tactic(auto, using(ground::specs::Choice::tests), unfolding(telegram::specs::Writers::disconnect_allowed))]
pub fn disconnect_allowed(new_setup: u32, reason: u32, count: usize, level: u32) -> bool
    ensures { result ≡ disconnect_allowed new_setup reason count level }
{
    good_type(new_setup) && listed_reason(reason) && count <= most_net(Kind::Disconnect, level)
}

// Whether a data telegram may carry these values.
#[tactic(auto, using(ground::specs::Choice::tests), unfolding(telegram::specs::Writers::data_allowed))]
pub fn data_allowed(low: u32, count: usize, level: u32) -> bool
    ensures { result ≡ data_allowed low count level }
{
    is_data(low) && count <= most_net(Kind::Data, level)
}

// A connect request or confirm, by its command. The random number is the telegram's sequence number.
#[tactic(auto, using(telegram::proofs::Refusals::connect_room))]
fn write_connect(out: &mut [u8], end: End, low: u32, random: u32, time: u32, net: &[u8]) -> Written
    requires { low < 64 }
    ensures { (result ≡ answer_of (puts_connect end low random time net.now out.old)) × (out.new ≡ left_by (puts_connect end low random time net.now out.old) out.old) }
{
    let allowed = connect_allowed(time, net.len(), end.level);
    let fields = connect_fields(random, time);
    told(put(out, end, random, low, allowed, &fields, net))
}

// Connect request (5.2.1).
#[tactic(auto, unfolding(telegram::specs::Writers::writes_request, telegram::specs::Telegrams::request, telegram::specs::Commands::kind_of, ground::specs::Choice::pick))]
pub fn write_request(out: &mut [u8], end: End, random: u32, time: u32, net: &[u8]) -> Written
    ensures { (result ≡ answer_of (writes_request end random time net.now out.old)) × (out.new ≡ left_by (writes_request end random time net.now out.old) out.old) }
{
    write_connect(out, end, REQUEST, random, time, net)
}

// Connect confirm (5.2.2).
#[tactic(auto, unfolding(telegram::specs::Writers::writes_confirm, telegram::specs::Telegrams::confirm, telegram::specs::Commands::kind_of, ground::specs::Choice::pick))]
pub fn write_confirm(out: &mut [u8], end: End, random: u32, time: u32, net: &[u8]) -> Written
    ensures { (result ≡ answer_of (writes_confirm end random time net.now out.old)) × (out.new ≡ left_by (writes_confirm end random time net.now out.old) out.old) }
{
    write_connect(out, end, CONFIRM, random, time, net)
}

// An authentication or its acknowledgement, by its command, from the random number RECEIVED at set-up.
#[tactic(auto, using(telegram::proofs::Widths::word_small))]
fn write_number(out: &mut [u8], end: End, low: u32, number: u32, received: u32) -> Written
    requires { low < 64 }
    ensures { (result ≡ answer_of (puts_number end low number received out.old)) × (out.new ≡ left_by (puts_number end low number received out.old) out.old) }
{
    let fields = authentication_of(end.level, received).to_le_bytes();
    told(put(out, end, number, low, true, &fields, b""))
}

// Authentication (5.2.3), from the random number RECEIVED at set-up.
#[tactic(auto, unfolding(telegram::specs::Writers::writes_authentication, telegram::specs::Telegrams::authentication, telegram::specs::Commands::kind_of, ground::specs::Choice::pick))]
pub fn write_authentication(out: &mut [u8], end: End, number: u32, received: u32) -> Written
    ensures { (result ≡ answer_of (writes_authentication end number received out.old)) × (out.new ≡ left_by (writes_authentication end number received out.old) out.old) }
{
    write_number(out, end, AUTHENTICATION, number, received)
}

// Authentication acknowledgement (5.2.4), from the random number RECEIVED at set-up.
#[tactic(auto, unfolding(telegram::specs::Writers::writes_acknowledgement, telegram::specs::Telegrams::acknowledgement, telegram::specs::Commands::kind_of, ground::specs::Choice::pick))]
pub fn write_acknowledgement(out: &mut [u8], end: End, number: u32, received: u32) -> Written
    ensures { (result ≡ answer_of (writes_acknowledgement end number received out.old)) × (out.new ≡ left_by (writes_acknowledgement end number received out.old) out.old) }
{
    write_number(out, end, ACKNOWLEDGEMENT, number, received)
}

// Disconnect (5.2.5). A new set-up is desired, 1, or the disconnection is final, 0.
#[tactic(auto, using(telegram::proofs::Refusals::disconnect_room), unfolding(telegram::specs::Writers::writes_disconnect, telegram::specs::Telegrams::disconnect, telegram::specs::Commands::kind_of, ground::specs::Choice::pick))]
pub fn write_disconnect(
    out: &mut [u8],
    end: End,
    number: u32,
    new_setup: u32,
    reason: u32,
    text: &[u8],
) -> Written
    ensures { (result ≡ answer_of (writes_disconnect end number new_setup reason text.now out.old)) × (out.new ≡ left_by (writes_disconnect end number new_setup reason text.now out.old) out.old) }
{
    let allowed = disconnect_allowed(new_setup, reason, text.len(), end.level);
    // The lowest bytes, as above.
    let fields = [(new_setup % 256) as u8, (reason % 256) as u8];
    told(put(out, end, number, DISCONNECT, allowed, &fields, text))
}

// Idle (5.2.6).
#[tactic(auto, using(telegram::proofs::Widths::word_small), unfolding(telegram::specs::Writers::writes_idle, telegram::specs::Telegrams::idle, telegram::specs::Commands::kind_of, ground::specs::Choice::pick))]
pub fn write_idle(out: &mut [u8], end: End, number: u32) -> Written
    ensures { (result ≡ answer_of (writes_idle end number out.old)) × (out.new ≡ left_by (writes_idle end number out.old) out.old) }
{
    told(put(out, end, number, IDLE, true, b"", b""))
}

// Data (5.2.7), with the command's low six bits.
pub fn write_data(out: &mut [u8], end: End, number: u32, low: u32, net: &[u8]) -> Written
    ensures { (result ≡ answer_of (writes_data end number low net.now out.old)) × (out.new ≡ left_by (writes_data end number low net.now out.old) out.old) }
{
    let allowed = data_allowed(low, net.len(), end.level);
    told(put(out, end, number, low, allowed, b"", net))
}
