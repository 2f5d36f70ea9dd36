// The fields of a telegram by their names. Each reads 0 where the telegram is too short to have it.
ghost use Rattle.std.specs.Prelude.{◌≡◌};
ghost use Rattle.telegram.specs.Commands.{kind_of_command};
ghost use Rattle.telegram.specs.Check.{command_of};
ghost use Rattle.telegram.specs.Fields.{random_of, idle_time_of, version_x_of, version_y_of, authentication_of, type_of, reason_of, low_of};

use crate::Kind;
use crate::commands::kind_of;
use ground::{byte, bytes_at};

// The command's low six bits.
pub fn command_low(telegram: &[u8]) -> u32
    ensures { result ≡ low_of telegram.now }
{
    (byte(telegram, 1) % 64) as u32
}

// What the telegram's command names.
pub fn kind_of_telegram(telegram: &[u8]) -> Kind
    ensures { result ≡ kind_of_command (command_of telegram.now) }
{
    kind_of(command_low(telegram))
}

// Of a connect request or confirm.
pub fn random_number(telegram: &[u8]) -> u32
    ensures { result ≡ random_of telegram.now }
{
    u32::from_le_bytes(bytes_at::<4>(telegram, 2))
}

pub fn idle_time(telegram: &[u8]) -> u32
    ensures { result ≡ idle_time_of telegram.now }
{
    u16::from_le_bytes(bytes_at::<2>(telegram, 6)) as u32
}

pub fn version_x(telegram: &[u8]) -> u32
    ensures { result ≡ version_x_of telegram.now }
{
    byte(telegram, 8) as u32
}

pub fn version_y(telegram: &[u8]) -> u32
    ensures { result ≡ version_y_of telegram.now }
{
    byte(telegram, 9) as u32
}

// Of an authentication or its acknowledgement: where a request has its random number, but another field.
pub fn authentication_number(telegram: &[u8]) -> u32
    ensures { result ≡ authentication_of telegram.now }
{
    u32::from_le_bytes(bytes_at::<4>(telegram, 2))
}

// Of a disconnect.
pub fn disconnect_type(telegram: &[u8]) -> u32
    ensures { result ≡ type_of telegram.now }
{
    byte(telegram, 2) as u32
}

pub fn disconnect_reason(telegram: &[u8]) -> u32
    ensures { result ≡ reason_of telegram.now }
{
    byte(telegram, 3) as u32
}
