ghost use Rattle.std.specs.Prelude.{◌≡◌, ℕ, ◌<◌, false, MatchOption};
ghost use Rattle.assignments.specs.Cheapest.{cheapest as first_cheapest};
ghost use Rattle.search.specs.Rows.{place_at};
ghost use Rattle.search.specs.Root.{seat_of, empty_row, first_of};

use crate::cheapest::cheapest;
use crate::table::Table;
use tariff::Tariff;

// An executor for a whole query, and its price.
#[derive(Clone, Copy)]
pub struct Seat<P> {
    pub server: u16,
    pub price: P,
}

// The place of a node at a server, as a seat.
fn seat_at<P: Copy>(table: &Table<P>, node: u16, server: u16) -> Option<Seat<P>>
    ensures { result ≡ seat_of server (place_at table.now.places.now table.now.servers node server) }
{
    let price = table.at(node, server)?.price;
    Some(Seat { server, price })
}

// The first of the cheapest servers of a node's row.
pub(crate) fn choose<T: Tariff>(
    tariff: &T,
    table: &Table<T::Price>,
    node: u16,
) -> Option<Seat<T::Price>>
    ensures { result ≡ first_cheapest (T.pricing tariff.now).leq (λ q. q.price) (λ s. seat_of s (place_at table.now.places.now table.now.servers node s)) table.now.servers }
{
    cheapest(tariff, table.servers, |server| seat_at(table, node, server))
}

// Whether every place of a node's row is empty.
fn is_empty_row<P: Copy>(table: &Table<P>, node: u16) -> bool
    ensures { result ≡ empty_row (place_at table.now.places.now table.now.servers node) table.now.servers }
{
    (0..table.servers).all(|server| table.at(node, server).is_none())
}

// The lowest of the first nodes whose row is empty.
pub(crate) fn lowest_empty<P: Copy>(table: &Table<P>, nodes: u16) -> Option<u16>
    ensures { MatchOption result ((k : ℕ) → k < nodes → empty_row (place_at table.now.places.now table.now.servers k) table.now.servers ≡ false) (λ i. i ≡ first_of (λ k. empty_row (place_at table.now.places.now table.now.servers k) table.now.servers) 0 nodes) }
{
    (0..nodes).find(|node| is_empty_row(table, *node))
}
