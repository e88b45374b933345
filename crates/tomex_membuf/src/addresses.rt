//! Addresses are computed in program order.

ghost use Rattle.std.specs.Prelude.{◌≡◌, None, IfSome, IsSome};
ghost use Rattle.tomex_tags.specs.Pools.{AreBusy};
ghost use Rattle.tomex_membuf.specs.Addresses.{has_base, IsNextAddress};
ghost use Rattle.tomex_tags.specs.Contents.{slot};

use tomex_bus::oldest;
use tomex_tags::{Pools, Station};
use tomex_timing::Field;

/// True if there is a station and its base is there.
fn has_base(station: Option<Station>) -> bool
    ensures { result ≡ has_base station }
{
    match station {
        Some(station) => matches!(station.j, Field::Value(_)),
        None => false,
    }
}

/// The place of the oldest load or store without an address, if its base is there.
pub fn address_next(pools: &Pools) -> Option<usize>
    ensures next { IsNextAddress pools.now.slots pools.now.issue_numbers result }
    ensures busy { AreBusy pools.now.slots pools.now.busy pools.now.issue_numbers }
    ensures there { IfSome result (λ x. IsSome (slot pools.now.slots x)) }
{
    let lacking = pools.places_without_address();
    if lacking == 0 {
        return None;
    }
    let place = oldest(lacking, pools.issue_numbers());
    if has_base(pools.at(place)) {
        Some(place)
    } else {
        None
    }
}
