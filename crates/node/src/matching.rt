// Which record a telegram is for.
ghost use Rattle.std.specs.Prelude.{◌≡◌};
ghost use Rattle.node.specs.Matching.{route_by, is_for, place_in, first_match};

use crate::Route;
use link::Record;

// Whether a telegram that was sent under this route is for the record. The partner's SAP comes first: as routes by `==`,
// sender first, the search of a table took up to seven times as long, and by `&` up to three times.
fn is_for(record: &Record, route: Route) -> bool
    ensures { result ≡ is_for route «record».now }
{
    record.partner_sap == route.source_sap
        && record.partner == route.sender
        && record.local_sap == route.destination_sap
}

// The place of the first record that a telegram sent under this route is for.
pub fn first_match(table: &[Record], route: Route) -> Option<usize>
    ensures { result ≡ place_in table.now (first_match route table.now) }
{
    table.iter().position(|record| is_for(record, route))
}

// What a telegram was sent under, by its numbers.
#[tactic(auto, unfolding(crate::specs::Matching::route_by))]
pub fn route_by(sender: u32, destination_sap: u32, source_sap: u32) -> Route
    ensures { result ≡ route_by sender destination_sap source_sap }
{
    Route {
        sender,
        destination_sap,
        source_sap,
    }
}
