// Where the net data of a telegram lie, and the net data as that part of it.
ghost use Rattle.std.specs.Prelude.{◌≡◌};
ghost use Rattle.telegram.specs.NetData.{net_part, net_data};

use crate::Part;
use crate::commands::is_known;
use crate::ends::is_level;
use crate::fields::kind_of_telegram;
use crate::layout::{header_length, length_suits};
use crate::levels::{level_of, word_length};
use ground::byte;

// Where the net data of a telegram start and how many there are: after the header and before the check word. Both are 0
// for bytes that are no telegram's.
#[tactic(auto, using(ground::specs::Choice::tests), unfolding(crate::specs::NetData::net_part))]
pub fn net_part(telegram: &[u8]) -> Part
    ensures { result ≡ net_part telegram.now }
{
    let kind = kind_of_telegram(telegram);
    let length = telegram.len();
    match level_of(byte(telegram, 1)) {
        Some(level) if is_level(level) && is_known(kind) && length_suits(kind, level, length) => {
            let header = header_length(kind);
            Part {
                start: header as u32,
                count: (length - header - word_length(level)) as u32,
            }
        }
        _ => Part::default(),
    }
}

// The net data: the part of the lent telegram after its fixed header and before its check word.
#[tactic(auto, using(crate::proofs::Inside::inside_by, crate::proofs::Inside::data_by))]
pub fn net_data(telegram: &[u8]) -> &[u8]
    ensures { result.now ≡ net_data telegram.now }
{
    let part = net_part(telegram);
    let start = part.start as usize;
    let end = start + part.count as usize;
    &telegram[start..end]
}
