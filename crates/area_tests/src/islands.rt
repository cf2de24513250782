//! Profiles, and the islands of routers under them.

ghost use Rattle.std.specs.Prelude.{◌<◌, length};

use crate::told::{address_at, after, front, spell, text};
use area_graph::Area;
use mrt_graph::{Graph, LinkNo, NodeNo};
use mrt_island::{Island, IslandError, Profile, find_island, read_profile};
use parts_of_tests::Page;
use std::alloc::Global;

/// `profile ROUTER DATA TEXT..`: what a profile says of a router and of its links with link data.
pub fn put_profile(alloc: Global, words: &str, page: &mut Page) {
    if let Some(profile) = profile(alloc, after(words, 2)) {
        let (router, data) = (address_at(words, 0), address_at(words, 1));
        page.number("priority ", profile.priority(router) as u64);
        page.truth(" supports ", profile.supports(router));
        page.truth(" eligible ", profile.eligible(router, data));
        page.end();
    }
}

/// The profile that words tell, if they tell one.
fn profile(alloc: Global, words: &str) -> Option<Profile> {
    let text = text(alloc, words);
    read_profile(alloc, front(text.bytes())).ok()
}

/// The island of a router of the area, which the first word names, under the profile of the others.
pub fn put_island_of(alloc: Global, area: &Area, words: &str, page: &mut Page) {
    if let Some(profile) = profile(alloc, after(words, 1)) {
        match find_island(alloc, area, &profile, address_at(words, 0)) {
            Ok(island) => put_island(page, &island),
            Err(error) => put_error(page, error),
        }
    }
}

/// Puts why a router has no island.
pub fn put_error(page: &mut Page, error: IslandError) {
    match error {
        IslandError::NotThere => page.put("NotThere\n"),
        IslandError::Unsupported => page.put("Unsupported\n"),
        IslandError::NoMemory => {}
    }
}

/// The nodes, each with its ends; the links; the root; and the link of each bond.
fn put_island(page: &mut Page, island: &Island) {
    for number in 0..island.graph.node_count() {
        put_node(page, &island.graph, NodeNo::new(number));
    }
    for number in 0..island.graph.link_count() {
        let link = island.graph.link(LinkNo::new(number));
        page.tell("link %: % %\n", &[number, link.a.get(), link.b.get()]);
    }
    page.count("root ", island.root.get());
    put_links(page, island.link_of.as_slice());
}

fn put_node(page: &mut Page, graph: &Graph, node: NodeNo)
    requires { node < length graph.now.ids }
{
    page.tell("%: ", &[node.get()]);
    page.name(graph.id(node));
    page.end();
    for end in graph.ends(node) {
        let (to, link) = (end.to.get() as u32, end.link.get() as u32);
        spell(
            page,
            "  to % metric % data @ link %\n",
            &[to, end.metric as u32, end.link_data, link],
        );
    }
}

fn put_links(page: &mut Page, links: &[Option<LinkNo>]) {
    page.put("\nlinks of bonds");
    for link in links {
        match link {
            Some(link) => page.count(" ", link.get()),
            None => page.put(" -"),
        }
    }
    page.end();
}
