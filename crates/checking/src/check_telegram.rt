// The check of a received telegram. Addresses and SAPs are the end's and never the frame's; the check word is worked
// out last, over two runs.
ghost use Rattle.std.specs.Prelude.{◌≡◌, ◌≤◌, length, MatchResult};
ghost use Rattle.telegram.specs.Layout.{values};
ghost use Rattle.telegram.specs.Values.{good_fields};
ghost use Rattle.telegram.specs.Check.{number_used, word_agrees, clauses, first_failing, Passes, Failed, check_of, answer_number};

use crate::numbers::number_of;
use ground::byte;
use telegram::{
    Check, Clause, End, Kind, Refusal, Unfit, disconnect_type, good_dual_bus, good_idle, good_type,
    idle_time, in_range, is_known, kind_of_telegram, length_suits, level_of, on_bus, random_number,
    receiving_bytes, word_length, word_of,
};

// The number that a telegram is checked with: its own random number for request and confirm, else the expected one.
fn number_used(kind: Kind, expected: u32, t: &[u8]) -> u32
    ensures { result ≡ number_used kind expected (values kind t.now) }
{
    match kind {
        Kind::Request | Kind::Confirm => random_number(t),
        Kind::Authentication
        | Kind::Acknowledgement
        | Kind::Disconnect
        | Kind::Idle
        | Kind::Data
        | Kind::Unknown => expected,
    }
}

// Whether the fixed fields are in range.
#[tactic(auto, using(ground::specs::Choice::tests))]
fn fields_in_range(kind: Kind, t: &[u8]) -> bool
    ensures { result ≡ good_fields kind (values kind t.now) }
{
    match kind {
        Kind::Request | Kind::Confirm => {
            good_idle(idle_time(t)) && good_dual_bus(byte(t, 11) as u32)
        }
        Kind::Disconnect => good_type(disconnect_type(t)),
        Kind::Authentication | Kind::Acknowledgement | Kind::Idle | Kind::Data | Kind::Unknown => {
            true
        }
    }
}

// Whether the check word that came is the one of the end's implicit bytes and the telegram.
#[tactic(auto, using(telegram::proofs::Widths::word_small), unfolding(telegram::specs::Check::word_agrees))]
fn word_agrees(end: End, used: u32, t: &[u8]) -> bool
    requires { 6 ≤ length t.now }
    ensures { result ≡ word_agrees end used t.now }
{
    let implicit = receiving_bytes(end, used, t.len());
    let (covered, came) = t.split_at(t.len() - word_length(end.level));
    number_of(came) == word_of(end.level, &implicit, covered)
}

// The first clause that fails, of a telegram that the bus can carry.
#[tactic(auto, using(ground::specs::Choice::tests))]
fn first_failing(end: End, expected: u32, t: &[u8]) -> Result<(), Clause>
    requires { 6 ≤ length t.now }
    ensures { MatchResult result (λ _. first_failing (clauses end expected t.now) ≡ Passes) (λ clause. first_failing (clauses end expected t.now) ≡ Failed clause) }
{
    if level_of(byte(t, 1)) != Some(end.level) {
        return Err(Clause::Level);
    }
    let kind = kind_of_telegram(t);
    if !is_known(kind) {
        return Err(Clause::Command);
    }
    if !length_suits(kind, end.level, t.len()) {
        return Err(Clause::Length);
    }
    let used = number_used(kind, expected, t);
    if byte(t, 0) as u32 != used % 256 {
        return Err(Clause::Number);
    }
    if !fields_in_range(kind, t) {
        return Err(Clause::Fields);
    }
    if word_agrees(end, used, t) {
        Ok(())
    } else {
        Err(Clause::Word)
    }
}

// The check of a telegram under an end that expects this number. While a confirm is awaited, the expected number is 0.
#[tactic(auto, using(ground::specs::Choice::tests), unfolding(telegram::specs::Check::check_of))]
pub fn checked(end: End, expected: u32, telegram: &[u8]) -> Check
    ensures { result ≡ check_of end expected telegram.now }
{
    if !in_range(end) {
        return Err(Unfit::Refused(Refusal::OutOfRange as u32));
    }
    if !on_bus(telegram.len()) {
        return Err(Unfit::Refused(Refusal::BadTelegram as u32));
    }
    first_failing(end, expected, telegram).map_err(Unfit::Failed)
}

// The number that says what the check found: 0 passes, 1 and 6 refused, 100 failed. It is no `From`: both types are of
// other crates.
pub fn answer_number(check: Check) -> u32
    ensures { result ≡ answer_number check }
{
    match check {
        Ok(()) => 0,
        Err(Unfit::Failed(_)) => 100,
        Err(Unfit::Refused(number)) => number,
    }
}
