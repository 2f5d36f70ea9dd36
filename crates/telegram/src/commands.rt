// Commands by their low six bits.
ghost use Rattle.std.specs.Prelude.{◌≡◌};
ghost use Rattle.telegram.specs.Commands.{is_data, kind_of, known};

use crate::Kind;

// The low six bits of each kind that has one command. They are constants and no method of Kind: Data has many
// commands, and Unknown has none.
pub const REQUEST: u32 = 0x00;

pub const CONFIRM: u32 = 0x02;

pub const AUTHENTICATION: u32 = 0x03;

pub const ACKNOWLEDGEMENT: u32 = 0x04;

pub const DISCONNECT: u32 = 0x05;

pub const IDLE: u32 = 0x06;

// Whether these low six bits name a data telegram.
#[tactic(auto, using(ground::specs::Choice::tests), unfolding(crate::specs::Commands::is_data))]
pub fn is_data(low: u32) -> bool
    ensures { result ≡ is_data low }
{
    matches!(low, 0x09 | 0x20..=0x3F)
}

// What low six bits name. It is no `From<u32>`, which would not say that the number is of a command.
#[tactic(auto, using(ground::specs::Choice::tests), unfolding(crate::specs::Commands::kind_of))]
pub fn kind_of(low: u32) -> Kind
    ensures { result ≡ kind_of low }
{
    match low {
        REQUEST => Kind::Request,
        CONFIRM => Kind::Confirm,
        AUTHENTICATION => Kind::Authentication,
        ACKNOWLEDGEMENT => Kind::Acknowledgement,
        DISCONNECT => Kind::Disconnect,
        IDLE => Kind::Idle,
        _ if is_data(low) => Kind::Data,
        _ => Kind::Unknown,
    }
}

// Whether a telegram can be of this kind.
pub fn is_known(kind: Kind) -> bool
    ensures { result ≡ known kind }
{
    kind != Kind::Unknown
}
