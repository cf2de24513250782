//! The fourteen rules in their order.

ghost use Rattle.std.specs.Prelude.{◌≡◌, ◌<◌, ◌↔◌, ℕ, length};
ghost use Rattle.cert_checker.specs.steps.Found.{Judged};
ghost use Rattle.mrt_graph.specs.{Accepted.Accepted, Certificate.row_of, FirstFault.FirstFault, Sound.Sound};

use crate::block_links::{first_closed_fault, first_lone_fault};
use crate::heads::{first_misplaced_link, head_fault};
use crate::orders::order_fault;
use crate::rows::first_row_fault;
use crate::same_graph::graph_fault;
use crate::standing::blocks_hold;
use crate::verdict::Verdict;
use mrt_graph::{CertFile, Graph, NodeNo, accepted_implies_sound, accepted_or_one_first_fault};

/// Judges a certificate file for a graph and its root: yes where all fourteen rules hold; else the first rule that
/// fails and its least place.
/// A yes alone, whoever wrote the file, implies that both colors reach every destination and share only what every walk
/// uses.
///
/// Rules 1 to 6 are read one after another, rules 7 to 13 in one pass that keeps the least. Rule 14 follows from rules
/// 1, 3, 4 and 7 to 13, and is not read. No memory is taken. Rules 1 to 6 take a few passes over nodes and links where all rules
/// hold, and time in proportion to nodes times links at worst where one fails; the others one pass over the rows, or over
/// those of related nodes where the certificate holds these alone.
///
/// # Example
///
/// A triangle with its root 3.3.3.3. The one block has nodes 0 and 1 and the head 2; its closing link is link 2.
///
/// ```text
///     node 0, 1.1.1.1      link 0, plain     node 1, 2.2.2.2        row of   for   blue   red   tag
///     order 2         ---------------------- order 3                 0       1     0      1     Below
///            \                              /                        0       2     0      1     Head
///             \                            /                         1       0     2      0     Above
///        link 1, plain           link 2, closing                     1       2     2      0     Head
///               \                        /                           2       0     1      2     Top
///                    node 2, 3.3.3.3                                 2       1     1      2     Top
///                    order 1
///
///     check                                          Yes
///     with blue 2 in the row of 0 for 1              No { rule: 10, a: 0, b: 1 }: link 2 does not touch node 0
///     with order 2 at node 1                         No { rule: 2, a: 0, b: 1 }: two nodes have one order
/// ```
pub fn check(g: &Graph, root: NodeNo, f: &CertFile) -> Verdict
    requires { root < length g.now.ids }
    ensures yes { (result ≡ Verdict.Yes) ↔ Accepted g.now root f.now }
    ensures sound { result ≡ Verdict.Yes → Sound g.now.links (length g.now.ids) (row_of f.now.cert) }
    ensures no { (rule a b : ℕ)
        → ((result ≡ Verdict.No rule a b) ↔ FirstFault g.now root f.now rule a b) }
{
    accepted_implies_sound();
    accepted_or_one_first_fault();
    judge(g, root, f)
}

fn judge(g: &Graph, root: NodeNo, f: &CertFile) -> Verdict
    requires { root < length g.now.ids }
    ensures { Judged g.now root f.now result }
{
    if let Some(place) = graph_fault(g, &f.cert) {
        return Verdict::No {
            rule: 1,
            a: place.a,
            b: place.b,
        };
    }
    if let Some(place) = order_fault(g, root, f) {
        return Verdict::No {
            rule: 2,
            a: place.a,
            b: place.b,
        };
    }
    if let Some(place) = head_fault(&f.cert, root) {
        return Verdict::No {
            rule: 3,
            a: place.a,
            b: place.b,
        };
    }
    if let Some(link) = first_misplaced_link(&f.cert) {
        return Verdict::No {
            rule: 4,
            a: link,
            b: 0,
        };
    }
    let hold = blocks_hold(g, &f.cert, root);
    if let Some(node) = first_lone_fault(&f.cert, root, hold) {
        return Verdict::No {
            rule: 5,
            a: node,
            b: 0,
        };
    }
    if let Some(node) = first_closed_fault(&f.cert, root, hold) {
        return Verdict::No {
            rule: 6,
            a: node,
            b: 0,
        };
    }
    match first_row_fault(g, &f.cert, root) {
        None => Verdict::Yes,
        Some(fault) => Verdict::No {
            rule: fault.rule,
            a: fault.a,
            b: fault.b,
        },
    }
}
