//! What the LSAs of an area list.

ghost use Rattle.std.specs.Prelude.{◌≡◌, IfOk, IfErr};
ghost use Rattle.std.specs.{List.AllByRecursion, List.Sorted.IsStrictlySortedBy};
ghost use Rattle.mrt_graph.specs.NodeOrder.{node_id_cmp};
ghost use Rattle.lsdb.specs.{Installing.IsKept, Keys.AreDistinct};
ghost use Rattle.area_graph.specs.steps.NumberedEntries.{entries as all_entries};
ghost use Rattle.area_graph.specs.steps.Listed.{AreEntries};
ghost use Rattle.area_graph.specs.Nodes.{nodes};

use crate::area_error::AreaError;
use crate::entries::entries;
use crate::entry::Listing;
use crate::speakers::{ids, speakers};
use ospf_lsa::Lsa;
use std::alloc::Global;

/// The nodes of an area by ascending identifier, and the entries of the LSAs that speak for them.
pub fn listing(alloc: Global, lsas: &[Lsa]) -> Result<Listing, AreaError>
    requires kept { AllByRecursion IsKept lsas.now }
    requires distinct { AreDistinct lsas.now }
    ensures ids { IfOk result (λ listing. listing.ids.items ≡ nodes lsas.now) }
    ensures entries { IfOk result (λ listing. listing.entries.items ≡ all_entries lsas.now) }
    ensures ascend { IfOk result (λ listing. IsStrictlySortedBy node_id_cmp listing.ids.items) }
    ensures kept { IfOk result (λ listing. AreEntries listing.ids.items listing.entries.items) }
    ensures refused { IfErr result (λ error. error ≡ AreaError.NoMemory) }
{
    let speakers = speakers(alloc, lsas)?;
    let ids = ids(alloc, &speakers)?;
    let entries = entries(alloc, lsas, &speakers, &ids)?;
    Ok(Listing { ids, entries })
}
