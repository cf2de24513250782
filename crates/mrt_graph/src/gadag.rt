//! The GADAG of a graph: ears in their order, the head and the block of each node, the mark of each link.

use crate::cert::Role;
use crate::numbers::{LinkNo, NodeNo};
use std::marker::Model;

/// The direction that an ear gave a link; unset where no ear has it.
#[derive(Clone, Copy, PartialEq, Eq)]
pub enum Way {
    Unset,
    AToB,
    BToA,
}

/// The head and the block of a node (RFC 7811, section 4.5). A block is named by its first node.
#[derive(Clone, Copy, PartialEq, Eq)]
pub struct Place {
    pub head: NodeNo,
    pub block: NodeNo,
}

/// What the ears say of a link: its direction, its role, and the block that it lies in.
#[derive(Clone, Copy, PartialEq, Eq)]
pub struct Mark {
    pub way: Way,
    pub role: Role,
    pub block: NodeNo,
}

/// The ear order, the place of each node and the mark of each link, these two by number.
pub struct Gadag {
    order: Vec<NodeNo>,
    places: Vec<Place>,
    marks: Vec<Mark>,
}

impl Drop for Gadag {
    fn drop(self) {
        let Self {
            order: _,
            places: _,
            marks: _,
        } = self;
    }
}

impl Model for Gadag {
    ghost use Rattle.mrt_graph.specs.GadagLists.{GadagLists, gadag_of};

    ghost Value = { GadagLists };

    ghost view = { λ gadag. gadag_of gadag.order.items gadag.places.items gadag.marks.items };
}

impl Gadag {
    ghost use Rattle.std.specs.Prelude.{◌≡◌, ◌<◌, Some, length, slice_get};
    ghost use Rattle.mrt_graph.specs.GadagLists.{gadag_of};

    /// The GADAG of these lists.
    pub fn new(order: Vec<NodeNo>, places: Vec<Place>, marks: Vec<Mark>) -> Gadag
        ensures { result ≡ gadag_of order.items places.items marks.items }
    {
        Gadag {
            order,
            places,
            marks,
        }
    }

    /// The nodes, in the order in which they have their turns.
    ///
    /// Tests call it; what later steps need of it stands in places and marks.
    pub fn ear_order(&self) -> &[NodeNo]
        ensures { result.now ≡ self.now.order }
    {
        &self.order
    }

    /// A node's head and block.
    pub fn place(&self, n: NodeNo) -> Place
        requires { n < length self.now.places }
        ensures { slice_get self.now.places n ≡ Some result }
    {
        self.places[n.get() as usize]
    }

    /// A link's direction, role and block.
    pub fn mark(&self, e: LinkNo) -> Mark
        requires { e < length self.now.marks }
        ensures { slice_get self.now.marks e ≡ Some result }
    {
        self.marks[e.get() as usize]
    }

    /// The ear order, the places and the marks.
    pub fn into_lists(self) -> (Vec<NodeNo>, Vec<Place>, Vec<Mark>)
        ensures { self ≡ gadag_of result.0.items result.1.items result.2.items }
    {
        let Self {
            order,
            places,
            marks,
        } = self;
        (order, places, marks)
    }
}
