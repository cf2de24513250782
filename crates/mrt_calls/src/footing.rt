//! What the rows of a router's table are made from.

ghost use Rattle.std.specs.Prelude.{◌≡◌, Err, IfErr, IfOk, Contains};
ghost use Rattle.area_graph.specs.Fits.{Fits};
ghost use Rattle.mrt_graph.specs.NodeIds.{router as router_node};
ghost use Rattle.mrt_answer.specs.Islands.{island_in};
ghost use Rattle.mrt_exit.specs.{Due.IsDue, declared.exit.Exit.Exit};
ghost use Rattle.mrt_calls.specs.steps.Footings.{ArePartsOf, IsFooting, IsFootingIn};

use mrt_answer::{AreaAndIsland, Given, Parts, area_and_island, own_node, own_spot};
use mrt_exit::Exit;
use mrt_graph::NodeNo;
use primary_alt::{Primary, primaries};
use std::alloc::Global;

/// The area and a router's island in it, the router by its number in the island, and its primaries for all nodes of the
/// area.
pub(crate) struct Footing {
    pub(crate) net: AreaAndIsland,
    pub(crate) source: NodeNo,
    pub(crate) primaries: Vec<Option<Primary>>,
}

impl Drop for Footing {
    fn drop(self) {
        let Self {
            net: _,
            source: _,
            primaries: _,
        } = self;
    }
}

impl Footing {
    /// What the rows are made from.
    pub(crate) fn parts(&self) -> Parts<'_>
        ensures { ArePartsOf self.now result }
    {
        Parts {
            area: &self.net.area,
            island: &self.net.island.graph,
            link_of: self.net.island.link_of.as_slice(),
            source: self.source,
            primaries: &self.primaries,
        }
    }
}

/// What a router's rows are made from, in an area that was read.
pub(crate) fn footing_of(alloc: Global, given: &Given, router: u32) -> Result<Footing, Exit>
    ensures footing { IfOk result (IsFooting given.now router) }
    ensures none { IfErr result (IsDue (λ exit. island_in given.now router (Err exit))) }
{
    let net = area_and_island(alloc, given, router)?;
    footing_in(alloc, net, router)
}

/// The same, in the area and the router's island in it.
fn footing_in(alloc: Global, net: AreaAndIsland, router: u32) -> Result<Footing, Exit>
    requires fits { Fits net.area net.island.graph net.island.link_of }
    requires inside { Contains net.island.graph.ids (router_node router) }
    ensures footing { IfOk result (λ footing. (footing.net ≡ net) × IsFootingIn router footing) }
    ensures none { IfErr result (λ exit. exit ≡ Exit.NoMemory) }
{
    let source = own_node(&net.island.graph, router)?;
    let spot = own_spot(&net.area, router)?;
    let primaries = primaries(alloc, &net.area, spot)?;
    Ok(Footing {
        net,
        source,
        primaries,
    })
}
