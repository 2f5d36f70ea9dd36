// Which tables are accepted.
ghost use Rattle.std.specs.Prelude.{◌≡◌};
ghost use Rattle.node.specs.Accepted.{bounds_accepted, record_accepted, all_accepted, has_pair, accepted};

use crate::Head;
use link::Record;

// The most records that a table may have.
pub const MOST_RECORDS: usize = 64;

// Whether a table has 1 to 64 records, and the own address is in range.
#[tactic(auto, using(ground::specs::Choice::tests), unfolding(crate::specs::Accepted::bounds_accepted))]
fn bounds_accepted(count: usize, own: u32) -> bool
    ensures { result ≡ bounds_accepted count own }
{
    (1..=MOST_RECORDS).contains(&count) && own <= telegram::HIGHEST_ADDRESS
}

// Whether the record's fields are in range, under the head: its timers too.
#[tactic(auto, using(ground::specs::Choice::tests), unfolding(crate::specs::Accepted::record_accepted))]
fn record_accepted(record: Record, head: Head) -> bool
    ensures { result ≡ record_accepted head «record» }
{
    record.sent_at <= head.latest
        && record.taken_at <= head.latest
        && link::record_in_range(record, head.own)
}

// Whether every record is accepted.
fn all_accepted(table: &[Record], head: Head) -> bool
    ensures { result ≡ all_accepted head table.now }
{
    table.iter().all(|record| record_accepted(*record, head))
}

// Whether two records agree in partner address and both SAPs. The search stops at the first pair found: nested loops
// left by a label, as the scope names the form. The fields are compared here and by `&`: as routes by `==`, or by a
// function that `first_match` shares, it took 1.6 to 2.5 times as long on 64 records, and this loop runs at every call.
fn has_pair(table: &[Record]) -> bool
    ensures { result ≡ has_pair table.now }
{
    let mut found = false;
    let mut rest = table;
    'pairs: while let Some((first, others)) = rest.split_first() {
        for other in others {
            if (first.partner == other.partner)
                & (first.partner_sap == other.partner_sap)
                & (first.local_sap == other.local_sap)
            {
                found = true;
                break 'pairs;
            }
        }
        rest = others;
    }
    found
}

// Whether a table is one that the calls take under this head: else they answer 1.
#[tactic(auto, using(ground::specs::Choice::tests), unfolding(crate::specs::Accepted::accepted))]
pub fn table_accepted(table: &[Record], head: Head) -> bool
    ensures { result ≡ accepted head table.now }
{
    bounds_accepted(table.len(), head.own) && all_accepted(table, head) && !has_pair(table)
}
