//! `compute`: the certificate; `rows_of` and `near_rows`: the rows of each node for the others, all of them and those
//! that are not carried; `column_of` and `columns`: the rows of all nodes for each one, made alone and with those for
//! the others.

ghost use Rattle.std.specs.Prelude.{◌≡◌, ◌<◌, length};
ghost use Rattle.link_direction.specs.OrderedGadag.{SaysOrdered};
ghost use Rattle.mrt_rows.specs.RowMaker.{MakeRows};
ghost use Rattle.mrt_rows.specs.Rooted.{MakeColumns};

use crate::cert_words::{put_cert, put_links, put_nodes, put_row, put_row_list};
use mrt_graph::{Column, Directed, Graph, NodeNo};
use mrt_rows::{RootedColumns, SourceRows, column_of, compute, rows_of};
use parts_of_tests::Page;
use std::alloc::Global;

/// As many destinations as are taken side by side at most.
const DESTINATIONS: usize = 64;

pub fn put_computed(alloc: Global, g: &Graph, root: NodeNo, page: &mut Page)
    requires { root < length g.now.ids }
{
    if let Ok(cert) = compute(alloc, g, root) {
        put_cert(alloc, &cert, page);
    }
}

pub fn put_rows(alloc: Global, g: &Graph, root: NodeNo, d: &Directed, page: &mut Page)
    requires { SaysOrdered g.now root d.now }
{
    for n in 0..g.node_count() {
        page.count("from ", n);
        if let Ok(rows) = rows_of(alloc, g, root, d, NodeNo::new(n)) {
            put_row_list(page, &rows);
        }
    }
}

pub fn put_near_rows(alloc: Global, g: &Graph, root: NodeNo, page: &mut Page)
    requires { root < length g.now.ids }
{
    let Ok(mut rows) = SourceRows::new(alloc, g, root) else {
        return;
    };
    put_near_words(alloc, g, &rows, page);
    put_near_each(page, g, &mut rows);
}

fn put_near_each(page: &mut Page, g: &Graph, rows: &mut SourceRows)
    requires { MakeRows g.now rows.old }
    ensures { MakeRows g.now rows.new }
{
    for n in 0..g.node_count() {
        rows.find(g, NodeNo::new(n));
        page.count("from ", n);
        put_row_list(page, rows.rows());
    }
}

fn put_near_words(alloc: Global, g: &Graph, rows: &SourceRows, page: &mut Page)
    requires { MakeRows g.now rows.now }
{
    if let Ok(nodes) = rows.nodes(alloc, g) {
        put_nodes(page, &nodes);
    }
    if let Ok(links) = rows.links(alloc, g) {
        put_links(page, &links);
    }
}

pub fn put_column_each(alloc: Global, g: &Graph, root: NodeNo, d: &Directed, page: &mut Page)
    requires { SaysOrdered g.now root d.now }
{
    for n in 0..g.node_count() {
        put_column_of(alloc, g, root, d, NodeNo::new(n), page);
    }
}

fn put_column_of(alloc: Global, g: &Graph, root: NodeNo, d: &Directed, to: NodeNo, page: &mut Page)
    requires directed { SaysOrdered g.now root d.now }
    requires to { to < length g.now.ids }
{
    if let Ok(column) = column_of(alloc, g, root, d, to) {
        put_column(page, g, to, &column);
    }
}

pub fn put_columns(alloc: Global, g: &Graph, root: NodeNo, page: &mut Page)
    requires { root < length g.now.ids }
{
    if let Ok(mut columns) = RootedColumns::for_some(alloc, g, root, DESTINATIONS) {
        put_each_column(alloc, g, &mut columns, page);
    }
}

fn put_each_column(alloc: Global, g: &Graph, columns: &mut RootedColumns, page: &mut Page)
    requires { MakeColumns g.now columns.old }
{
    for n in 0..g.node_count() {
        put_next_column(alloc, g, columns, NodeNo::new(n), page);
    }
}

fn put_next_column(
    alloc: Global,
    g: &Graph,
    columns: &mut RootedColumns,
    to: NodeNo,
    page: &mut Page,
)
    requires to { to < length g.now.ids }
    requires made { MakeColumns g.now columns.old }
    ensures { MakeColumns g.now columns.new }
{
    columns.aim(g, to);
    if let Ok(column) = columns.column(g).held(alloc) {
        put_column(page, g, to, &column);
    }
}

fn put_column(page: &mut Page, g: &Graph, to: NodeNo, column: &Column)
    requires { length column.now ≡ length g.now.ids }
{
    page.node("to ", to);
    for n in 0..g.node_count() {
        match column.row(NodeNo::new(n)) {
            Some(row) => put_row(page, row),
            None => page.put(" -"),
        }
    }
    page.end();
}
