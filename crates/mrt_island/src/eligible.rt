//! Eligible pairs.

ghost use Rattle.std.specs.Prelude.{◌≡◌, ◌<◌, IfOk, length, map};
ghost use Rattle.area_graph.specs.AreaInvariant.{IsBond};
ghost use Rattle.mrt_island.specs.Eligible.{is_eligible as is_eligible_pair, is_for_transit as is_metric_for_transit, may_end};
ghost use Rattle.mrt_island.specs.Policy.{policy_of};

use crate::profile::Profile;
use area_graph::{Area, Bond, Spot};
use mrt_graph::{Kind, NoMemory};
use std::alloc::Global;

/// MaxLinkMetric, the metric of a link that is not for transit traffic (RFC 6987, sections 2 and 3).
const MAX_LINK_METRIC: u16 = 65_535;

/// Of each bond of the area whether it is an eligible pair.
pub fn eligible_pairs(alloc: Global, area: &Area, profile: &Profile) -> Result<Vec<bool>, NoMemory>
    ensures { IfOk result (λ flags. flags.items ≡ map (is_eligible_pair (policy_of profile.now) area.now.ids) area.now.bonds) }
{
    let bonds = area.bonds();
    let mut flags = Vec::with_capacity(alloc, bonds.len())?;
    for bond in bonds {
        flags.push_reserved(is_eligible(area, profile, bond));
    }
    Ok(flags)
}

/// Whether a bond is a pair of which both ends may be used, between nodes that support the profile, and which is for
/// transit traffic in both directions (RFC 7812, section 7.3.1).
fn is_eligible(area: &Area, profile: &Profile, bond: &Bond) -> bool
    requires { IsBond area.now.ids bond.now }
    ensures { result ≡ is_eligible_pair (policy_of profile.now) area.now.ids bond.now }
{
    bond.paired
        && serves(area, profile, bond.a, bond.data_a)
        && serves(area, profile, bond.b, bond.data_b)
        && is_for_transit(bond.metric_a)
        && is_for_transit(bond.metric_b)
}

/// Whether a node supports the profile, and its end with that link data may be used.
fn serves(area: &Area, profile: &Profile, s: Spot, link_data: u32) -> bool
    requires { s < length area.now.ids }
    ensures { result ≡ may_end (policy_of profile.now) area.now.ids s link_data }
{
    let id = area.id(s);
    match id.kind {
        Kind::Network => true,
        Kind::Router => profile.supports(id.number) && profile.eligible(id.number, link_data),
    }
}

/// Whether a link may be for transit traffic where one of its ends has this metric.
fn is_for_transit(metric: u16) -> bool
    ensures { result ≡ is_metric_for_transit metric }
{
    metric != MAX_LINK_METRIC
}
