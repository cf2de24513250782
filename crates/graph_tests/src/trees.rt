//! `search`: of each node its number, its parent link, its lowpoint and its lowpoint link.

ghost use Rattle.std.specs.Prelude.{◌≡◌, ◌<◌, length};

use lowpoint_dfs::search;
use mrt_graph::{Graph, LinkNo, NodeNo, Tree};
use parts_of_tests::Page;
use std::alloc::Global;

pub fn put_search(alloc: Global, g: &Graph, root: NodeNo, page: &mut Page)
    requires { root < length g.now.ids }
{
    if let Ok(tree) = search(alloc, g, root) {
        put_tree(page, &tree, g.node_count());
    }
}

fn put_tree(page: &mut Page, tree: &Tree, count: u16)
    requires { length tree.now ≡ count }
{
    page.put("tree");
    for n in 0..count {
        let node = tree.node(NodeNo::new(n));
        page.count(" ", node.number);
        put_link(page, node.parent);
        page.count("/", node.low);
        put_link(page, node.low_link);
    }
    page.end();
}

fn put_link(page: &mut Page, link: Option<LinkNo>) {
    match link {
        Some(link) => page.link("/", link),
        None => page.put("/-"),
    }
}
