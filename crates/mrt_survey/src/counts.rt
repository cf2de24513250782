//! What a survey counts of nodes and links.

ghost use Rattle.std.specs.Prelude.{◌≡◌, ◌≤◌, ◌↔◌, IfOk, IsTrue, length};
ghost use Rattle.std.specs.List.{filter};
ghost use Rattle.mrt_graph.specs.{Roles.is_sole, AcceptedFor.IsAcceptedAt};
ghost use Rattle.mrt_survey.specs.{BlockHeads.HeadsTwo, Counting.AreSoMany, Separating.SeparatesTwo, SurveyText.HasLink};

use crate::marks::{count_of, mark_blocks, mark_heads, no_marks, set_mark};
use mrt_graph::{Cert, CertLink, Graph, NoMemory, NodeNo, Role};
use std::alloc::Global;

/// How many blocks have a link.
pub fn blocks_with_links(alloc: Global, c: &Cert) -> Result<u16, NoMemory>
    ensures { IfOk result (λ count.
        AreSoMany (HasLink c.now.links) (length c.now.nodes) count) }
{
    let mut marks = no_marks(alloc, c.node_count())?;
    mark_blocks(&mut marks, c.links());
    Ok(count_of(&marks))
}

/// How many of these links are sole.
pub fn sole_links(links: &[CertLink]) -> u16
    requires { length links.now ≤ 65535 }
    ensures { result ≡ length (filter (λ link. is_sole link.role) links.now) }
{
    links.iter().filter(|link| link.role == Role::Sole).count() as u16
}

/// How many nodes separate two others.
///
/// It follows no walk: those are the nodes that are heads of blocks. It looks at each node of the certificate twice.
pub fn separating_nodes(alloc: Global, g: &Graph, root: NodeNo, c: &Cert) -> Result<u16, NoMemory>
    requires { IsAcceptedAt g.now root c.now }
    ensures { IfOk result (λ count.
        AreSoMany (SeparatesTwo g.now.links (length g.now.ids)) (length g.now.ids) count) }
{
    let mut marks = no_marks(alloc, c.node_count())?;
    mark_heads(&mut marks, c.nodes());
    set_mark(&mut marks, root, heads_two_blocks(c, root));
    Ok(count_of(&marks))
}

/// Whether a node is the head of two blocks.
fn heads_two_blocks(c: &Cert, x: NodeNo) -> bool
    ensures { IsTrue result ↔ HeadsTwo c.now x }
{
    let mut first = None;
    for place in 0..c.node_count() {
        let a = NodeNo::new(place);
        let node = c.node(a);
        if a == x || node.head != x {
            continue;
        }
        match first {
            Some(block) if block != node.block => return true,
            _ => first = Some(node.block),
        }
    }
    false
}
