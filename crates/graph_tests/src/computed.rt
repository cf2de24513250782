//! The calls that are given a graph and its root.

ghost use Rattle.std.specs.Prelude.{◌<◌, length};

use crate::calls::Call;
use crate::gadags::{put_directions, put_ears};
use crate::order_walks::put_walks;
use crate::paths::put_paths;
use crate::tables::{put_column_each, put_columns, put_computed, put_near_rows, put_rows};
use crate::told::{graph, node};
use crate::trees::put_search;
use mrt_graph::{Graph, NodeNo};
use mrt_rows::directions;
use parts_of_tests::Page;
use std::alloc::Global;

/// Puts what a call asks of the graph and the root that words tell.
pub fn put_of_graph(alloc: Global, call: Call, words: &str, page: &mut Page) {
    if let Some(g) = graph(alloc, words, page) {
        match node(&g, words, "root") {
            Some(root) => put_asked(alloc, call, &g, root, page),
            None => page.put("no root\n"),
        }
    }
}

fn put_asked(alloc: Global, call: Call, g: &Graph, root: NodeNo, page: &mut Page)
    requires { root < length g.now.ids }
{
    match call {
        Call::Search => put_search(alloc, g, root, page),
        Call::Ears => put_ears(alloc, g, root, page),
        Call::NearRows => put_near_rows(alloc, g, root, page),
        Call::Columns => put_columns(alloc, g, root, page),
        Call::Compute => put_computed(alloc, g, root, page),
        _ => put_ordered(alloc, call, g, root, page),
    }
}

/// Puts what a call asks of the directions of a graph.
fn put_ordered(alloc: Global, call: Call, g: &Graph, root: NodeNo, page: &mut Page)
    requires { root < length g.now.ids }
{
    if let Ok(d) = directions(alloc, g, root) {
        match call {
            Call::Direct => put_directions(page, g, &d),
            Call::Spf | Call::SpfTo => put_paths(alloc, call, g, &d, page),
            Call::RowsOf => put_rows(alloc, g, root, &d, page),
            Call::ColumnOf => put_column_each(alloc, g, root, &d, page),
            _ => put_walks(alloc, g, root, &d, page),
        }
    }
}
