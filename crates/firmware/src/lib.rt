// The library for the card's firmware: plain numbers and byte runs. `firmware_c` exports what stands here to C.
// An end comes as five numbers, one by one, and an answer goes out as a number, since C hands them over so.
#![tactic(auto)]

ghost use Rattle.std.specs.Prelude.{◌≡◌, ◌++◌};
ghost use Rattle.checkword.specs.Generators.{generator48, generator32};
ghost use Rattle.checkword.specs.Word.{word};
ghost use Rattle.telegram.specs.Writers.{answer_of, left_by};
ghost use Rattle.telegram.specs.Writers.{writes_request, writes_confirm, writes_authentication, writes_acknowledgement};
ghost use Rattle.telegram.specs.Writers.{writes_disconnect, writes_idle, writes_data};
ghost use Rattle.telegram.specs.Check.{check_of, answer_number};
ghost use Rattle.telegram.specs.NetData.{net_part};
ghost use Rattle.firmware.specs.Ends.{end_of};

use telegram::{End, Part, Written};

// An end of a connection from the plain numbers that name it.
fn end_of(own: u32, partner: u32, partner_sap: u32, local_sap: u32, level: u32) -> End
    ensures { result ≡ end_of own partner partner_sap local_sap level }
{
    End {
        own,
        partner,
        partner_sap,
        local_sap,
        level,
    }
}

// Connect request.
pub fn uj_write_request(
    own: u32,
    partner: u32,
    partner_sap: u32,
    local_sap: u32,
    level: u32,
    random: u32,
    idle_time: u32,
    net: &[u8],
    out: &mut [u8],
) -> Written
    ensures { (result ≡ answer_of (writes_request (end_of own partner partner_sap local_sap level) random idle_time net.now out.old)) × (out.new ≡ left_by (writes_request (end_of own partner partner_sap local_sap level) random idle_time net.now out.old) out.old) }
{
    let end = end_of(own, partner, partner_sap, local_sap, level);
    writers::write_request(out, end, random, idle_time, net)
}

// Connect confirm.
pub fn uj_write_confirm(
    own: u32,
    partner: u32,
    partner_sap: u32,
    local_sap: u32,
    level: u32,
    random: u32,
    idle_time: u32,
    net: &[u8],
    out: &mut [u8],
) -> Written
    ensures { (result ≡ answer_of (writes_confirm (end_of own partner partner_sap local_sap level) random idle_time net.now out.old)) × (out.new ≡ left_by (writes_confirm (end_of own partner partner_sap local_sap level) random idle_time net.now out.old) out.old) }
{
    let end = end_of(own, partner, partner_sap, local_sap, level);
    writers::write_confirm(out, end, random, idle_time, net)
}

// Authentication, from the number received at set-up.
pub fn uj_write_authentication(
    own: u32,
    partner: u32,
    partner_sap: u32,
    local_sap: u32,
    level: u32,
    number: u32,
    received: u32,
    out: &mut [u8],
) -> Written
    ensures { (result ≡ answer_of (writes_authentication (end_of own partner partner_sap local_sap level) number received out.old)) × (out.new ≡ left_by (writes_authentication (end_of own partner partner_sap local_sap level) number received out.old) out.old) }
{
    let end = end_of(own, partner, partner_sap, local_sap, level);
    writers::write_authentication(out, end, number, received)
}

// Authentication acknowledgement, from the number received at set-up.
pub fn uj_write_acknowledgement(
    own: u32,
    partner: u32,
    partner_sap: u32,
    local_sap: u32,
    level: u32,
    number: u32,
    received: u32,
    out: &mut [u8],
) -> Written
    ensures { (result ≡ answer_of (writes_acknowledgement (end_of own partner partner_sap local_sap level) number received out.old)) × (out.new ≡ left_by (writes_acknowledgement (end_of own partner partner_sap local_sap level) number received out.old) out.old) }
{
    let end = end_of(own, partner, partner_sap, local_sap, level);
    writers::write_acknowledgement(out, end, number, received)
}

// Disconnect. A new set-up is desired, 1, or the disconnection is final, 0.
pub fn uj_write_disconnect(
    own: u32,
    partner: u32,
    partner_sap: u32,
    local_sap: u32,
    level: u32,
    number: u32,
    new_setup: u32,
    reason: u32,
    text: &[u8],
    out: &mut [u8],
) -> Written
    ensures { (result ≡ answer_of (writes_disconnect (end_of own partner partner_sap local_sap level) number new_setup reason text.now out.old)) × (out.new ≡ left_by (writes_disconnect (end_of own partner partner_sap local_sap level) number new_setup reason text.now out.old) out.old) }
{
    let end = end_of(own, partner, partner_sap, local_sap, level);
    writers::write_disconnect(out, end, number, new_setup, reason, text)
}

// Idle.
pub fn uj_write_idle(
    own: u32,
    partner: u32,
    partner_sap: u32,
    local_sap: u32,
    level: u32,
    number: u32,
    out: &mut [u8],
) -> Written
    ensures { (result ≡ answer_of (writes_idle (end_of own partner partner_sap local_sap level) number out.old)) × (out.new ≡ left_by (writes_idle (end_of own partner partner_sap local_sap level) number out.old) out.old) }
{
    let end = end_of(own, partner, partner_sap, local_sap, level);
    writers::write_idle(out, end, number)
}

// Data, with the command's low six bits.
pub fn uj_write_data(
    own: u32,
    partner: u32,
    partner_sap: u32,
    local_sap: u32,
    level: u32,
    number: u32,
    command: u32,
    net: &[u8],
    out: &mut [u8],
) -> Written
    ensures { (result ≡ answer_of (writes_data (end_of own partner partner_sap local_sap level) number command net.now out.old)) × (out.new ≡ left_by (writes_data (end_of own partner partner_sap local_sap level) number command net.now out.old) out.old) }
{
    let end = end_of(own, partner, partner_sap, local_sap, level);
    writers::write_data(out, end, number, command, net)
}

// The check of a received telegram, as a number: 0 passes, 1 and 6 refused, 100 failed.
pub fn uj_check(
    own: u32,
    partner: u32,
    partner_sap: u32,
    local_sap: u32,
    level: u32,
    expected: u32,
    telegram: &[u8],
) -> u32
    ensures { result ≡ answer_number (check_of (end_of own partner partner_sap local_sap level) expected telegram.now) }
{
    let end = end_of(own, partner, partner_sap, local_sap, level);
    checking::answer_number(checking::checked(end, expected, telegram))
}

// Where the net data of a telegram lie.
pub fn uj_net_data(telegram: &[u8]) -> Part
    ensures { result ≡ net_part telegram.now }
{
    telegram::net_part(telegram)
}

// The check word at SL 4 of `first` and then `second`.
pub fn uj_word48(first: &[u8], second: &[u8]) -> u64
    ensures { result ≡ word 48 generator48 (first.now ++ second.now) }
{
    checkword::word48(first, second)
}

// The check word at SL 2 of `first` and then `second`.
pub fn uj_word32(first: &[u8], second: &[u8]) -> u32
    ensures { result ≡ word 32 generator32 (first.now ++ second.now) }
{
    checkword::word32(first, second)
}
