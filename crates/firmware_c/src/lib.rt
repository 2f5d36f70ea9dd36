// The writers, the check, the net data and the check word for C, on plain numbers and byte runs. include/ujamniq.h
// declares them, for the people who call them. Each is the function of `firmware` that has its name, and says what that
// says: a crate is a library or a static library, and Rattle code calls the library's.
#![tactic(auto)]

ghost use Rattle.std.specs.Prelude.{◌≡◌, ◌++◌};
ghost use Rattle.checkword.specs.Generators.{generator48, generator32};
ghost use Rattle.checkword.specs.Word.{word};
ghost use Rattle.telegram.specs.Writers.{answer_of, left_by};
ghost use Rattle.telegram.specs.Writers.{writes_request, writes_confirm, writes_authentication, writes_acknowledgement};
ghost use Rattle.telegram.specs.Writers.{writes_disconnect, writes_idle, writes_data};
ghost use Rattle.telegram.specs.Check.{check_of, answer_number};
ghost use Rattle.telegram.specs.NetData.{net_part};
ghost use Rattle.firmware.specs.Ends.{end_of};

use telegram::{Part, Written};

// Connect request.
#[unsafe(no_mangle)]
pub extern "C" fn uj_write_request(
    own: u32,
    partner: u32,
    partner_sap: u32,
    local_sap: u32,
    level: u32,
    random: u32,
    idle_time: u32,
    net: &[u8],
    out: &mut [u8],
) -> Written
    ensures { (result ≡ answer_of (writes_request (end_of own partner partner_sap local_sap level) random idle_time net.now out.old)) × (out.new ≡ left_by (writes_request (end_of own partner partner_sap local_sap level) random idle_time net.now out.old) out.old) }
{
    firmware::uj_write_request(
        own,
        partner,
        partner_sap,
        local_sap,
        level,
        random,
        idle_time,
        net,
        out,
    )
}

// Connect confirm.
#[unsafe(no_mangle)]
pub extern "C" fn uj_write_confirm(
    own: u32,
    partner: u32,
    partner_sap: u32,
    local_sap: u32,
    level: u32,
    random: u32,
    idle_time: u32,
    net: &[u8],
    out: &mut [u8],
) -> Written
    ensures { (result ≡ answer_of (writes_confirm (end_of own partner partner_sap local_sap level) random idle_time net.now out.old)) × (out.new ≡ left_by (writes_confirm (end_of own partner partner_sap local_sap level) random idle_time net.now out.old) out.old) }
{
    firmware::uj_write_confirm(
        own,
        partner,
        partner_sap,
        local_sap,
        level,
        random,
        idle_time,
        net,
        out,
    )
}

// Authentication, from the number received at set-up.
#[unsafe(no_mangle)]
pub extern "C" fn uj_write_authentication(
    own: u32,
    partner: u32,
    partner_sap: u32,
    local_sap: u32,
    level: u32,
    number: u32,
    received: u32,
    out: &mut [u8],
) -> Written
    ensures { (result ≡ answer_of (writes_authentication (end_of own partner partner_sap local_sap level) number received out.old)) × (out.new ≡ left_by (writes_authentication (end_of own partner partner_sap local_sap level) number received out.old) out.old) }
{
    firmware::uj_write_authentication(
        own,
        partner,
        partner_sap,
        local_sap,
        level,
        number,
        received,
        out,
    )
}

// Authentication acknowledgement, from the number received at set-up.
#[unsafe(no_mangle)]
pub extern "C" fn uj_write_acknowledgement(
    own: u32,
    partner: u32,
    partner_sap: u32,
    local_sap: u32,
    level: u32,
    number: u32,
    received: u32,
    out: &mut [u8],
) -> Written
    ensures { (result ≡ answer_of (writes_acknowledgement (end_of own partner partner_sap local_sap level) number received out.old)) × (out.new ≡ left_by (writes_acknowledgement (end_of own partner partner_sap local_sap level) number received out.old) out.old) }
{
    firmware::uj_write_acknowledgement(
        own,
        partner,
        partner_sap,
        local_sap,
        level,
        number,
        received,
        out,
    )
}

// Disconnect. A new set-up is desired, 1, or the disconnection is final, 0.
#[unsafe(no_mangle)]
pub extern "C" fn uj_write_disconnect(
    own: u32,
    partner: u32,
    partner_sap: u32,
    local_sap: u32,
    level: u32,
    number: u32,
    new_setup: u32,
    reason: u32,
    text: &[u8],
    out: &mut [u8],
) -> Written
    ensures { (result ≡ answer_of (writes_disconnect (end_of own partner partner_sap local_sap level) number new_setup reason text.now out.old)) × (out.new ≡ left_by (writes_disconnect (end_of own partner partner_sap local_sap level) number new_setup reason text.now out.old) out.old) }
{
    firmware::uj_write_disconnect(
        own,
        partner,
        partner_sap,
        local_sap,
        level,
        number,
        new_setup,
        reason,
        text,
        out,
    )
}

// Idle.
#[unsafe(no_mangle)]
pub extern "C" fn uj_write_idle(
    own: u32,
    partner: u32,
    partner_sap: u32,
    local_sap: u32,
    level: u32,
    number: u32,
    out: &mut [u8],
) -> Written
    ensures { (result ≡ answer_of (writes_idle (end_of own partner partner_sap local_sap level) number out.old)) × (out.new ≡ left_by (writes_idle (end_of own partner partner_sap local_sap level) number out.old) out.old) }
{
    firmware::uj_write_idle(own, partner, partner_sap, local_sap, level, number, out)
}

// Data, with the command's low six bits.
#[unsafe(no_mangle)]
pub extern "C" fn uj_write_data(
    own: u32,
    partner: u32,
    partner_sap: u32,
    local_sap: u32,
    level: u32,
    number: u32,
    command: u32,
    net: &[u8],
    out: &mut [u8],
) -> Written
    ensures { (result ≡ answer_of (writes_data (end_of own partner partner_sap local_sap level) number command net.now out.old)) × (out.new ≡ left_by (writes_data (end_of own partner partner_sap local_sap level) number command net.now out.old) out.old) }
{
    firmware::uj_write_data(
        own,
        partner,
        partner_sap,
        local_sap,
        level,
        number,
        command,
        net,
        out,
    )
}

// The check of a received telegram, as a number: 0 passes, 1 and 6 refused, 100 failed.
#[unsafe(no_mangle)]
pub extern "C" fn uj_check(
    own: u32,
    partner: u32,
    partner_sap: u32,
    local_sap: u32,
    level: u32,
    expected: u32,
    telegram: &[u8],
) -> u32
    ensures { result ≡ answer_number (check_of (end_of own partner partner_sap local_sap level) expected telegram.now) }
{
    firmware::uj_check(
        own,
        partner,
        partner_sap,
        local_sap,
        level,
        expected,
        telegram,
    )
}

// Where the net data of a telegram lie.
#[unsafe(no_mangle)]
pub extern "C" fn uj_net_data(telegram: &[u8]) -> Part
    ensures { result ≡ net_part telegram.now }
{
    firmware::uj_net_data(telegram)
}

// The check word at SL 4 of `first` and then `second`.
#[unsafe(no_mangle)]
pub extern "C" fn uj_word48(first: &[u8], second: &[u8]) -> u64
    ensures { result ≡ word 48 generator48 (first.now ++ second.now) }
{
    firmware::uj_word48(first, second)
}

// The check word at SL 2 of `first` and then `second`.
#[unsafe(no_mangle)]
pub extern "C" fn uj_word32(first: &[u8], second: &[u8]) -> u32
    ensures { result ≡ word 32 generator32 (first.now ++ second.now) }
{
    firmware::uj_word32(first, second)
}
