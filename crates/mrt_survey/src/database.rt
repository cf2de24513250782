//! The database of a network that is made from a number.

ghost use Rattle.std.specs.Prelude.{◌≡◌, ◌≤◌, IfOk, length};
ghost use Rattle.ospf_lsa.specs.{LsaText.lsas_text, Lsas.AreLsas};
ghost use Rattle.mrt_survey.specs.MadeLsas.{made_lsas};

use crate::made_links::links_from;
use crate::made_lsas::put_lsa;
use mrt_graph::NoMemory;
use std::alloc::Global;

/// The database of a network of so many routers, from 4 to 2,048: a ring of four fifths of them, which has chords, and a
/// router beside it for each of the others. Which routers the chords and the spurs join, and all metrics, come from
/// `number`, so that it is the same network on every machine.
///
/// It is the router-LSAs of routers 1 and up, one after another, without a fault.
///
/// It takes time in proportion to routers times links, and memory for the links and the bytes.
///
/// # Errors
///
/// [`NoMemory`] where there was none for the links and the bytes.
pub fn generate(alloc: Global, number: u32, nodes: u16) -> Result<Vec<u8>, NoMemory>
    requires some { 4 ≤ nodes }
    requires few { nodes ≤ 2048 }
    ensures text { IfOk result (λ bytes. bytes.items ≡ lsas_text (made_lsas number nodes)) }
    // `read_lsas` reads just these LSAs.
    ensures lsas { IfOk result (λ _. AreLsas 0 (made_lsas number nodes)) }
    ensures size { IfOk result (λ bytes. length bytes.items ≤ 8388608) }
{
    let links = links_from(alloc, number, nodes)?;
    let mut bytes = Vec::new(alloc);
    for before in 0..nodes {
        put_lsa(&mut bytes, alloc, &links, u32::from(before) + 1)?;
    }
    Ok(bytes)
}
