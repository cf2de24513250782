//! Sound rows.

ghost use Rattle.std.specs.Prelude.{◌≢◌, ◌<◌, ◌↔◌, ℕ, IfOk, IsTrue, length};
ghost use Rattle.mrt_graph.specs.{Certificate.row_of, Sound.Sound, Sound.SoundFor};
ghost use Rattle.mrt_plain.specs.Within.{AreWithin};

use crate::arrival::reaches;
use crate::sharing::apart;
use mrt_graph::{Cert, Color, Link, NoMemory, NodeNo};
use std::alloc::Global;

/// Whether the rows are sound on these links.
///
/// It takes the time of `apart` for each two nodes.
pub fn sound(alloc: Global, links: &[Link], c: &Cert) -> Result<bool, NoMemory>
    requires { AreWithin (length c.now.nodes) links.now }
    ensures { IfOk result (λ yes. IsTrue yes ↔ Sound links.now (length c.now.nodes) (row_of c.now)) }
{
    for s in 0..c.node_count() {
        if !sound_from(alloc, links, c, NodeNo::new(s))? {
            return Ok(false);
        }
    }
    Ok(true)
}

/// Whether the rows are sound for all destinations of `s`.
fn sound_from(alloc: Global, links: &[Link], c: &Cert, s: NodeNo) -> Result<bool, NoMemory>
    requires within { AreWithin (length c.now.nodes) links.now }
    requires source { s < length c.now.nodes }
    ensures { IfOk result (λ yes. IsTrue yes ↔
        ((t : ℕ) → t < length c.now.nodes → s ≢ t → SoundFor links.now (length c.now.nodes) (row_of c.now) s t)) }
{
    for t in 0..c.node_count() {
        let t = NodeNo::new(t);
        if s != t && !sound_for(alloc, links, c, s, t)? {
            return Ok(false);
        }
    }
    Ok(true)
}

/// Whether both color walks from `s` reach `t`, and share only what separates `s` and `t`.
fn sound_for(
    alloc: Global,
    links: &[Link],
    c: &Cert,
    s: NodeNo,
    t: NodeNo,
) -> Result<bool, NoMemory>
    requires within { AreWithin (length c.now.nodes) links.now }
    requires source { s < length c.now.nodes }
    requires target { t < length c.now.nodes }
    ensures { IfOk result (λ yes. IsTrue yes ↔ SoundFor links.now (length c.now.nodes) (row_of c.now) s t) }
{
    if !reaches(alloc, links, c, Color::Blue, s, t)? {
        return Ok(false);
    }
    if !reaches(alloc, links, c, Color::Red, s, t)? {
        return Ok(false);
    }
    apart(alloc, links, c, s, t)
}
