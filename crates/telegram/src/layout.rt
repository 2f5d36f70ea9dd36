// The layout of each kind of telegram: what stands before the net data, how much there may be, and which lengths suit.
ghost use Rattle.std.specs.Prelude.{◌≡◌};
ghost use Rattle.telegram.specs.Layout.{header, most, suits, on_bus};

use crate::Kind;
use crate::levels::word_length;

// The longest telegram, check word included.
pub const LONGEST: usize = 244;

// How many bytes stand before the net data.
pub(crate) fn header_length(kind: Kind) -> usize
    ensures { result ≡ header kind }
{
    match kind {
        Kind::Request | Kind::Confirm => 12,
        Kind::Authentication | Kind::Acknowledgement => 6,
        Kind::Disconnect => 4,
        Kind::Idle | Kind::Data | Kind::Unknown => 2,
    }
}

// How many net bytes a telegram of this kind can carry.
#[tactic(auto, using(crate::proofs::Widths::word_small))]
pub fn most_net(kind: Kind, level: u32) -> usize
    ensures { result ≡ most kind level }
{
    let word = word_length(level);
    match kind {
        Kind::Request | Kind::Confirm => LONGEST - 12 - word,
        Kind::Disconnect => 40,
        Kind::Data => LONGEST - 2 - word,
        Kind::Authentication | Kind::Acknowledgement | Kind::Idle | Kind::Unknown => 0,
    }
}

// Whether this length suits the kind and level.
#[tactic(auto, using(ground::specs::Choice::tests, crate::proofs::Widths::word_small, crate::proofs::Cases::header_small, crate::proofs::Cases::most_small))]
pub fn length_suits(kind: Kind, level: u32, length: usize) -> bool
    ensures { result ≡ suits kind level length }
{
    let word = word_length(level);
    let header = header_length(kind);
    let most = most_net(kind, level);
    header + word <= length && length <= header + most + word
}

// Whether the bus can carry a telegram of this length for us.
#[tactic(auto, using(ground::specs::Choice::tests))]
pub fn on_bus(length: usize) -> bool
    ensures { result ≡ on_bus length }
{
    (6..=LONGEST).contains(&length)
}
