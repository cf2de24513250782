//! The directions of the links that no ear has.

ghost use Rattle.std.specs.Prelude.{◌≡◌, ◌<◌, length, slice_index_or};
ghost use Rattle.mrt_graph.specs.declared.link.Link.{Link};
ghost use Rattle.link_direction.specs.steps.LinksOfNoEar.{AreLinksDirected, direction_by};

use mrt_graph::{Graph, Link, LinkNo, Mark, NodeNo, Way};

/// Directs each link that has no direction from its node with the lower number to the other one.
pub fn direct_links(g: &Graph, numbers: &[u16], marks: &mut Vec<Mark>)
    requires numbers { length numbers.now ≡ length g.now.ids }
    requires marks { length marks.old.items ≡ length g.now.links }
    ensures { AreLinksDirected g.now numbers.now (length g.now.links) marks.old.items marks.new.items }
{
    for e in 0..g.link_count() {
        let link = g.link(LinkNo::new(e));
        let mark = marks[e as usize];
        marks[e as usize] = Mark {
            way: direction_of(numbers, link, mark.way),
            role: mark.role,
            block: mark.block,
        };
    }
}

fn direction_of(numbers: &[u16], link: Link, way: Way) -> Way
    requires a { link.a < length numbers.now }
    requires b { link.b < length numbers.now }
    ensures { result ≡ direction_by numbers.now link way }
{
    if way != Way::Unset {
        return way;
    }
    if number_of(numbers, link.a) < number_of(numbers, link.b) {
        Way::AToB
    } else {
        Way::BToA
    }
}

fn number_of(numbers: &[u16], v: NodeNo) -> u16
    requires { v < length numbers.now }
    ensures { result ≡ slice_index_or numbers.now v 0 }
{
    numbers[v.get() as usize]
}
