//! Numbers by name, those of one name in a chain.

ghost use Rattle.std.specs.Prelude.{◌≡◌, ◌<◌, ◌≤◌, ◌+◌, ℕ, Some, length, slice_get};
ghost use Rattle.order_repair.specs.steps.Blocks.{AreChains};

use mrt_graph::{NoMemory, NodeNo};
use std::alloc::Global;

/// Of each name the first number, and of each number the next one of its name. Where there is none, the count of the
/// numbers stands.
#[derive(Drop)]
pub struct Chains {
    pub firsts: Vec<u16>,
    pub nexts: Vec<u16>,
}

impl Chains {
    ghost use Rattle.std.specs.Prelude.{◌≡◌, ◌<◌, ◌≤◌, ℕ, IfOk, Some, length, slice_get};
    ghost use Rattle.order_repair.specs.steps.Blocks.{AreChains};

    /// The chains of numbers with these names, of so many.
    ///
    /// It takes time in proportion to the numbers and the names.
    pub fn new(alloc: Global, names: &[NodeNo], count: usize) -> Result<Chains, NoMemory>
        requires few { length names.now ≤ 65535 }
        requires names { (k name : ℕ) → slice_get names.now k ≡ Some name → name < count }
        ensures chained { IfOk result (λ chains.
            AreChains names.now 0 chains.firsts.items chains.nexts.items) }
        ensures one_first_each { IfOk result (λ chains. length chains.firsts.items ≡ count) }
    {
        let none = names.len() as u16;
        let mut firsts = vec![in alloc; none; count]?;
        let mut nexts = vec![in alloc; none; names.len()]?;
        let mut at = names.len();
        while at > 0 {
            at -= 1;
            link(names, at, &mut firsts, &mut nexts);
        }
        Ok(Chains { firsts, nexts })
    }

    /// The first number of a name.
    pub fn first(&self, name: NodeNo) -> u16
        requires { name < length self.now.firsts.items }
        ensures { slice_get self.now.firsts.items name ≡ Some result }
    {
        self.firsts[name.get() as usize]
    }

    /// The next number of the name that a number has.
    pub fn next(&self, number: u16) -> u16
        requires { number < length self.now.nexts.items }
        ensures { slice_get self.now.nexts.items number ≡ Some result }
    {
        self.nexts[number as usize]
    }
}

/// Puts a number before those of its name that come after it.
fn link(names: &[NodeNo], at: usize, firsts: &mut Vec<u16>, nexts: &mut Vec<u16>)
    requires few { length names.now ≤ 65535 }
    requires at { at < length names.now }
    requires names { (k name : ℕ) → slice_get names.now k ≡ Some name → name < length firsts.old.items }
    requires nexts { length nexts.old.items ≡ length names.now }
    ensures one_first_each { length firsts.new.items ≡ length firsts.old.items }
    ensures chained { AreChains names.now (at + 1) firsts.old.items nexts.old.items
        → AreChains names.now at firsts.new.items nexts.new.items }
{
    let name = names[at].get() as usize;
    nexts[at] = firsts[name];
    firsts[name] = at as u16;
}
