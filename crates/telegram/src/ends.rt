// An end of a connection, and the implicit bytes of what it writes and takes.
ghost use Rattle.std.specs.Prelude.{◌≡◌};
ghost use Rattle.telegram.specs.Ends.{is_level, in_range, implicit, sending, receiving};

use crate::End;

// The highest bus address of a node, and the highest SAP.
pub const HIGHEST_ADDRESS: u32 = 126;

const HIGHEST_SAP: u32 = 62;

// Whether there is such a level.
#[tactic(auto, unfolding(ground::specs::Choice::pick))]
pub(crate) fn is_level(level: u32) -> bool
    ensures { result ≡ is_level level }
{
    matches!(level, 4 | 2)
}

// Whether addresses, SAPs and level are in range.
#[tactic(auto, using(ground::specs::Choice::tests), unfolding(crate::specs::Ends::in_range))]
pub fn in_range(end: End) -> bool
    ensures { result ≡ in_range end }
{
    end.own <= HIGHEST_ADDRESS
        && end.partner <= HIGHEST_ADDRESS
        && end.partner_sap <= HIGHEST_SAP
        && end.local_sap <= HIGHEST_SAP
        && is_level(end.level)
}

// The eight implicit bytes, with the addresses and SAPs as the telegram travels.
#[tactic(auto, unfolding(crate::specs::Ends::implicit))]
fn implicit_bytes(
    count: usize,
    receiver: u32,
    sender: u32,
    dsap: u32,
    ssap: u32,
    number: u32,
) -> [u8; 8]
    ensures { result ≡ implicit count receiver sender dsap ssap number }
{
    // The number's lowest byte is the telegram's first. Of the other numbers the lowest byte is taken:
    // `to_le_bytes()[0]` would say no more.
    let [_, low, middle, high] = number.to_le_bytes();
    [
        (count % 256) as u8,
        (receiver % 256) as u8,
        (sender % 256) as u8,
        (dsap % 256) as u8,
        (ssap % 256) as u8,
        low,
        middle,
        high,
    ]
}

// Of what this end writes: the partner's SAP is the destination, its own the source.
pub fn sending_bytes(end: End, number: u32, count: usize) -> [u8; 8]
    ensures { result ≡ sending end number count }
{
    let receiver = end.partner;
    let dsap = end.partner_sap;
    let ssap = end.local_sap;
    implicit_bytes(count, receiver, end.own, dsap, ssap, number)
}

// Of what this end takes: its own SAP is the destination, the partner's the source.
pub fn receiving_bytes(end: End, number: u32, count: usize) -> [u8; 8]
    ensures { result ≡ receiving end number count }
{
    let sender = end.partner;
    let dsap = end.local_sap;
    let ssap = end.partner_sap;
    implicit_bytes(count, end.own, sender, dsap, ssap, number)
}
