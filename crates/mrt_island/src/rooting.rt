//! The GADAG root.

ghost use Rattle.std.specs.Prelude.{◌≡◌, ◌≤◌, length};
ghost use Rattle.mrt_graph.specs.NodeOrder.{node_id_cmp};
ghost use Rattle.std.specs.List.Sorted.{IsStrictlySortedBy};
ghost use Rattle.mrt_island.specs.Policy.{policy_of};
ghost use Rattle.mrt_island.specs.steps.Rooting.{HasRouter, level_of};
ghost use Rattle.mrt_island.specs.Rooting.{IsRoot};

use crate::profile::Profile;
use mrt_graph::{Kind, NodeId, NodeNo};

/// Of nodes by ascending identifier, one of them a router, the root: the router with the lowest priority number and, among those, the
/// highest router ID.
pub fn root(ids: &[NodeId], profile: &Profile) -> NodeNo
    requires few { length ids.now ≤ 4096 }
    requires ascend { IsStrictlySortedBy node_id_cmp ids.now }
    requires some { HasRouter ids.now }
    ensures { IsRoot (policy_of profile.now) ids.now result }
{
    let mut best = 0;
    let mut lowest: u16 = u8::MAX as u16;
    for k in 0..ids.len() {
        let own = level(profile, &ids[k]);
        if own <= lowest {
            best = k;
            lowest = own;
        }
    }
    NodeNo::new(best as u16)
}

/// A router's priority number; of a network one above all those.
fn level(profile: &Profile, id: &NodeId) -> u16
    ensures value { result ≡ level_of (policy_of profile.now) id.now.kind id.now.number }
    ensures router { id.now.kind ≡ Kind.Router → result ≤ 255 }
{
    match id.kind {
        Kind::Router => profile.priority(id.number) as u16,
        Kind::Network => 256,
    }
}
