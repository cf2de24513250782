//! `ears`: the ear order, the head and the block of each node, the way, the role and the block of each link; and
//! `direct`: the order number of each node in place of the ear order.

ghost use Rattle.std.specs.Prelude.{◌≡◌, ◌<◌, IfOk, length};
ghost use Rattle.link_direction.specs.FromEars.{IsFromEars};
ghost use Rattle.block_spf.specs.HasDirections.{HasDirections};

use crate::cert_words::role_word;
use gadag_ears::ears;
use lowpoint_dfs::search;
use mrt_graph::{Directed, Gadag, Graph, LinkNo, Mark, NoMemory, NodeNo, Place, Way};
use parts_of_tests::Page;
use std::alloc::Global;

/// The GADAG of a graph.
fn gadag_of(alloc: Global, g: &Graph, root: NodeNo) -> Result<Gadag, NoMemory>
    requires { root < length g.now.ids }
    ensures gadag { IfOk result (IsFromEars g.now root) }
    ensures places { IfOk result (λ gadag. length gadag.places ≡ length g.now.ids) }
    ensures marks { IfOk result (λ gadag. length gadag.marks ≡ length g.now.links) }
{
    let tree = search(alloc, g, root)?;
    ears(alloc, g, root, &tree)
}

pub fn put_ears(alloc: Global, g: &Graph, root: NodeNo, page: &mut Page)
    requires { root < length g.now.ids }
{
    let Ok(gadag) = gadag_of(alloc, g, root) else {
        return;
    };
    put_ear_order(page, gadag.ear_order());
    put_places(page, &gadag, g.node_count());
    put_marks(page, &gadag, g.link_count());
}

fn put_ear_order(page: &mut Page, order: &[NodeNo]) {
    page.put("ear order");
    for n in order {
        page.node(" ", *n);
    }
    page.end();
}

fn put_places(page: &mut Page, gadag: &Gadag, count: u16)
    requires { length gadag.now.places ≡ count }
{
    page.put("places");
    for n in 0..count {
        put_place(page, gadag.place(NodeNo::new(n)));
    }
    page.end();
}

fn put_marks(page: &mut Page, gadag: &Gadag, count: u16)
    requires { length gadag.now.marks ≡ count }
{
    page.put("marks");
    for e in 0..count {
        put_mark(page, gadag.mark(LinkNo::new(e)));
    }
    page.end();
}

pub fn put_directions(page: &mut Page, g: &Graph, d: &Directed)
    requires { HasDirections g.now d.now }
{
    put_orders(page, d, g.node_count());
    put_directed_places(page, d, g.node_count());
    put_directed_marks(page, d, g.link_count());
}

fn put_orders(page: &mut Page, d: &Directed, count: u16)
    requires { length d.now.orders ≡ count }
{
    page.put("orders");
    for n in 0..count {
        page.count(" ", d.order(NodeNo::new(n)));
    }
    page.end();
}

fn put_directed_places(page: &mut Page, d: &Directed, count: u16)
    requires { length d.now.places ≡ count }
{
    page.put("places");
    for n in 0..count {
        put_place(page, d.place(NodeNo::new(n)));
    }
    page.end();
}

fn put_directed_marks(page: &mut Page, d: &Directed, count: u16)
    requires { length d.now.marks ≡ count }
{
    page.put("marks");
    for e in 0..count {
        put_mark(page, d.mark(LinkNo::new(e)));
    }
    page.end();
}

fn put_place(page: &mut Page, place: Place) {
    page.tell(" %/%", &[place.head.get(), place.block.get()]);
}

fn put_mark(page: &mut Page, mark: Mark) {
    page.put(match mark.way {
        Way::Unset => " unset/",
        Way::AToB => " a>b/",
        Way::BToA => " b>a/",
    });
    page.put(role_word(mark.role));
    page.node("/", mark.block);
}
