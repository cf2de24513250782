//! The primaries of all routers, and the numbers of an island and of its area.

ghost use Rattle.std.specs.Prelude.{◌≡◌, ◌≤◌, length};
ghost use Rattle.area_graph.specs.Fits.{Fits};

use crate::hops::put_primary;
use area_graph::{Area, BondNo, Spot};
use mrt_graph::{Graph, LinkNo, NodeNo};
use mrt_island::Island;
use parts_of_tests::Page;
use primary_alt::Routes;
use std::alloc::Global;

/// `routes FILE PROFILE ROUTER`.
pub fn put_routes(alloc: Global, area: &Area, island: &Island, page: &mut Page)
    requires { Fits area.now island.now.graph island.now.link_of }
{
    if let Ok(routes) = Routes::new(alloc, area, &island.graph, island.link_of.as_slice()) {
        put_all(page, &routes, area, &island.graph);
    }
}

fn put_all(page: &mut Page, routes: &Routes, area: &Area, g: &Graph)
    requires rows { length routes.now.primaries ≡ length area.now.ids }
    requires nodes { length routes.now.nodes ≡ length area.now.ids }
    requires links { length routes.now.links ≡ length area.now.bonds }
    requires spots { length routes.now.spots ≡ length g.now.ids }
    requires bonds { length routes.now.bonds ≡ length g.now.links }
{
    put_primaries(page, routes, area.count());
    put_nodes(page, routes, area.count());
    put_island(page, routes, g.node_count(), g.link_count());
    put_links(page, routes, area.bonds().len().min(65535) as u16);
}

/// Of each two nodes the primary.
fn put_primaries(page: &mut Page, routes: &Routes, count: u16)
    requires { length routes.now.primaries ≡ count }
{
    for x in 0..count {
        for t in 0..count {
            page.tell("primary % %", &[x, t]);
            put_primary(page, routes.primary(Spot::new(x), Spot::new(t)));
        }
    }
}

/// Of each area node the island node.
fn put_nodes(page: &mut Page, routes: &Routes, count: u16)
    requires { length routes.now.nodes ≡ count }
{
    for s in 0..count {
        page.count("node ", s);
        match routes.node(Spot::new(s)) {
            Some(node) => page.count(": ", node.get()),
            None => page.put(": none"),
        }
        page.end();
    }
}

/// Of each island node the area node, and of each island link the bond.
fn put_island(page: &mut Page, routes: &Routes, nodes: u16, links: u16)
    requires spots { length routes.now.spots ≡ nodes }
    requires bonds { length routes.now.bonds ≡ links }
{
    for n in 0..nodes {
        let spot = routes.spot(NodeNo::new(n));
        page.tell("spot %: %\n", &[n, spot.get()]);
    }
    for e in 0..links {
        let bond = routes.bond(LinkNo::new(e));
        page.tell("bond %: %\n", &[e, bond.get()]);
    }
}

/// Of each bond the link that it is.
fn put_links(page: &mut Page, routes: &Routes, count: u16)
    requires { count ≤ length routes.now.links }
{
    for b in 0..count {
        page.count("link ", b);
        match routes.link(BondNo::new(b)) {
            Some(link) => page.count(": ", link.get()),
            None => page.put(": none"),
        }
        page.end();
    }
}
