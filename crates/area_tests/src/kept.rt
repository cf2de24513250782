//! Router-LSAs that are told by their fields, and installed.

ghost use Rattle.std.specs.Prelude.{◌≡◌, Some, IfOk, OnOk, false};
ghost use Rattle.std.specs.List.{list_any};
ghost use Rattle.lsdb.specs.Installing.{IsBehind};
ghost use Rattle.ospf_lsa.specs.Lsas.{has_zero_metric};

use lsdb::{Change, Lsdb};
use mrt_graph::{NoMemory, Seq};
use ospf_lsa::{Body, Lsa, RouterLink};
use std::alloc::Global;

/// What tells one instance of a router-LSA from another, beside its links.
#[derive(Clone, Copy)]
pub struct Instance {
    pub router: u32,
    pub sequence: i32,
    pub age: u16,
    pub checksum: u16,
    pub flags: u8,
}

fn link(to: u32) -> RouterLink
    ensures { has_zero_metric result ≡ false }
{
    RouterLink {
        id: to,
        link_data: to % 256,
        kind: 1,
        entries: 0,
        metric: 10,
    }
}

/// A link of metric 10 to each of these routers; its link data is the low byte of the router's number.
fn links(alloc: Global, to: &[u32]) -> Result<Seq<RouterLink>, NoMemory>
    ensures { IfOk result (λ links. list_any has_zero_metric links ≡ false) }
{
    let mut links = Vec::new(alloc);
    for number in to {
        links.push(link(*number))?;
    }
    Ok(Seq::from_vec(links))
}

/// Installs an instance at a place, with links to these routers, and tells what that changed.
pub fn put(
    alloc: Global,
    database: &mut Lsdb,
    at: u32,
    instance: Instance,
    to: &[u32],
) -> Result<Change, NoMemory>
    requires { IsBehind database.old.greatest at }
    ensures { OnOk result (database.new.greatest ≡ Some at) }
{
    let links = links(alloc, to)?;
    database.install(Lsa {
        at,
        age: instance.age,
        options: 2,
        kind: 1,
        id: instance.router,
        router: instance.router,
        sequence: instance.sequence,
        checksum: instance.checksum,
        body: Body::Router {
            flags: instance.flags,
            spare: 0,
            links,
            tos: Seq::from_vec(Vec::new(alloc)),
        },
    })
}
