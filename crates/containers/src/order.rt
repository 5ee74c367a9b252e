//! The order in which the sectors of a track are read.

ghost use Rattle.std.specs.Prelude.{◌≡◌, ◌<◌, ◌≤◌, ◌==◌, drop, length, nat_lt, true};
ghost use Rattle.std.specs.List.{list_all, list_any};
ghost use Rattle.containers.specs.Layouts.{distinct, is_order, physical};

/// How many sectors a track has at most.
pub const MOST_SECTORS: usize = 1024;

/// Whether a number comes after the first of these numbers, as many as `count`.
fn stands_behind(numbers: &[usize], count: usize, number: usize) -> bool
    requires { count ≤ length numbers.now }
    ensures { result ≡ list_any (λ y. y == number) (drop count numbers.now) }
{
    numbers[count..].contains(&number)
}

/// Whether none of these numbers occurs twice.
fn is_distinct(numbers: &[usize]) -> bool
    ensures { result ≡ distinct numbers.now }
{
    for (index, number) in numbers.iter().enumerate() {
        if stands_behind(numbers, index + 1, *number) {
            return false;
        }
    }
    true
}

/// Whether each of these is the number of a place on a track with as many places.
fn are_places(order: &[usize]) -> bool
    ensures { result ≡ list_all (λ place. nat_lt place (length order.now)) order.now }
{
    let count = order.len();
    order.iter().all(|place| *place < count)
}

/// Whether each place of a track is named once.
#[tactic(auto, unfolding(crate::specs::Layouts::is_order))]
pub fn is_order(order: &[usize]) -> bool
    ensures { result ≡ is_order order.now }
{
    if order.is_empty() || order.len() > MOST_SECTORS {
        return false;
    }
    are_places(order) && is_distinct(order)
}

/// Where the sector is that is read as this one, counted through all tracks.
#[tactic(auto, unfolding(crate::specs::Layouts::physical), using(crate::proofs::Orders::order_some, crate::proofs::Orders::order_below))]
pub fn physical(order: &[usize], sector: usize) -> usize
    requires order { is_order order.now ≡ true }
    requires small { sector < 4294967296 }
    ensures { result ≡ physical order.now sector }
{
    let count = order.len();
    sector / count * count + order[sector % count]
}
