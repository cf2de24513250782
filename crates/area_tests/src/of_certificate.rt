//! The certificate of an island, and what is asked of it.

ghost use Rattle.std.specs.Prelude.{◌<◌, IfOk, length};
ghost use Rattle.mrt_graph.specs.AcceptedFor.{IsAcceptedAt, IsAcceptedFor};

use crate::alternates::{put_alternate, put_repairs};
use crate::calls::Call;
use crate::told::number_at;
use mrt_graph::{Cert, Graph, NoMemory, NodeNo};
use mrt_island::Island;
use mrt_rows::compute;
use mrt_survey::survey_text;
use parts_of_tests::Page;
use std::alloc::Global;

/// Puts what a call asks of the certificate of an island. A survey's number is the second word.
pub fn put_of_certificate(
    alloc: Global,
    island: &Island,
    call: Call,
    words: &str,
    page: &mut Page,
) {
    let (g, root) = (&island.graph, island.root);
    if root.get() >= g.node_count() {
        return;
    }
    let Ok(cert) = certificate(alloc, g, root) else {
        return;
    };
    match call {
        Call::Alternate => put_alternate(g, &cert, words, page),
        Call::Repairs => put_repairs(alloc, g, root, &cert, page),
        Call::Survey => page.made(survey_text(alloc, number_at(words, 1), g, root, &cert)),
        _ => page.put("no such call\n"),
    }
}

/// The certificate of a graph and its root.
fn certificate(alloc: Global, g: &Graph, root: NodeNo) -> Result<Cert, NoMemory>
    requires { root < length g.now.ids }
    ensures at { IfOk result (λ cert. IsAcceptedAt g.now root cert) }
    ensures accepted { IfOk result (λ cert. IsAcceptedFor g.now cert) }
{
    let cert = compute(alloc, g, root)?;
    // the root has an identifier, of which the certificate's clauses speak
    let _id = g.id(root);
    Ok(cert)
}
