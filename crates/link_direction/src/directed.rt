//! The order of a GADAG and the direction of every link.

ghost use Rattle.std.specs.Prelude.{◌<◌, IfOk, length};
ghost use Rattle.link_direction.specs.{Directed.IsDirected, FromEars.IsFromEars, OrderedGadag.SaysOrdered};

use crate::links_of_no_ear::direct_links;
use crate::numbering::numbers_of;
use crate::ordering::order_of;
use mrt_graph::{Directed, Gadag, Graph, NoMemory, NodeNo};
use std::alloc::Global;

/// Puts the nodes of a GADAG in order, and directs the links that no ear has from the lower to the higher order.
///
/// It takes time in proportion to nodes and links.
pub fn direct(alloc: Global, g: &Graph, root: NodeNo, gadag: Gadag) -> Result<Directed, NoMemory>
    requires root { root < length g.now.ids }
    requires gadag { IsFromEars g.now root gadag }
    ensures exact { IfOk result (IsDirected g.now root gadag) }
    ensures ordered { IfOk result (SaysOrdered g.now root) }
{
    let (_, places, mut marks) = gadag.into_lists();
    let order = order_of(alloc, g, root, &marks)?;
    let numbers = numbers_of(alloc, g, &order)?;
    direct_links(g, &numbers, &mut marks);
    Ok(Directed::new(numbers, places, marks))
}
