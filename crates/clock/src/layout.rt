// A Sync and Reference Time message from its bytes, 6.3.1.9.
ghost use Rattle.std.specs.Prelude.{◌≡◌, length};
ghost use Rattle.clock.specs.Reading.{prefixed, read_by};

use crate::{Message, RefTime, Unreadable};
use ground::bytes_at;

// How many bytes a message has.
const BYTES: usize = 11;

// Whether the configuration data prefix stands first.
#[tactic(auto, unfolding(ground::specs::Choice::pick, crate::specs::Reading::prefixed))]
fn has_prefix(bytes: &[u8]) -> bool
    requires { length bytes.now ≡ 11 }
    ensures { result ≡ prefixed bytes.now }
{
    matches!(bytes, [3, 0, 0, ..])
}

// The message that a run of bytes is.
#[tactic(auto, unfolding(ground::specs::Choice::pick, crate::specs::Reading::read_by))]
pub fn read_message(bytes: &[u8]) -> Result<Message, Unreadable>
    ensures { result ≡ read_by bytes.now }
{
    if bytes.len() != BYTES {
        return Err(Unreadable::NotEleven);
    }
    if !has_prefix(bytes) {
        return Err(Unreadable::OtherPrefix);
    }
    let number = u32::from_le_bytes(bytes_at(bytes, 3));
    let time = u32::from_le_bytes(bytes_at(bytes, 7));
    Ok(Message {
        number,
        reference: RefTime(time),
    })
}
