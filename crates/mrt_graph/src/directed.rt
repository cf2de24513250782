//! A GADAG with its order: the order number, the head and the block of each node, the mark of each link.

use crate::gadag::{Mark, Place};
use crate::numbers::{LinkNo, NodeNo};
use std::marker::Model;

/// The order number and the place of each node, and the mark of each link, by number (RFC 7811, section 5.6). Order
/// numbers begin at 1.
pub struct Directed {
    orders: Vec<u16>,
    places: Vec<Place>,
    marks: Vec<Mark>,
}

impl Drop for Directed {
    fn drop(self) {
        let Self {
            orders: _,
            places: _,
            marks: _,
        } = self;
    }
}

impl Model for Directed {
    ghost use Rattle.mrt_graph.specs.DirectedLists.{DirectedLists, directed_of};

    ghost Value = { DirectedLists };

    ghost view = { λ d. directed_of d.orders.items d.places.items d.marks.items };
}

impl Directed {
    ghost use Rattle.std.specs.Prelude.{◌≡◌, ◌<◌, Some, length, slice_get};
    ghost use Rattle.mrt_graph.specs.DirectedLists.{directed_of};

    /// The GADAG with these lists.
    pub fn new(orders: Vec<u16>, places: Vec<Place>, marks: Vec<Mark>) -> Directed
        ensures { result ≡ directed_of orders.items places.items marks.items }
    {
        Directed {
            orders,
            places,
            marks,
        }
    }

    /// A node's order number.
    pub fn order(&self, n: NodeNo) -> u16
        requires { n < length self.now.orders }
        ensures { slice_get self.now.orders n ≡ Some result }
    {
        self.orders[n.get() as usize]
    }

    /// A node's head and block.
    pub fn place(&self, n: NodeNo) -> Place
        requires { n < length self.now.places }
        ensures { slice_get self.now.places n ≡ Some result }
    {
        self.places[n.get() as usize]
    }

    /// A link's direction, role and block.
    pub fn mark(&self, e: LinkNo) -> Mark
        requires { e < length self.now.marks }
        ensures { slice_get self.now.marks e ≡ Some result }
    {
        self.marks[e.get() as usize]
    }
}
