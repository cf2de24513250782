//! The destinations of the packets of a script.

ghost use Rattle.std.specs.Prelude.{◌≡◌, ◌<◌, ◌↔◌, ℕ, Contains, IfOk, IfSome, Some, false, length, replicate};
ghost use Rattle.fabric.specs.Destinations.{AreDestinations, EntersFor};

use area_graph::{Area, Spot};
use fabric_script::{Script, ScriptEvent};
use mrt_graph::NoMemory;
use std::alloc::Global;

/// The nodes of the area for which packets enter by the events of a script, each once.
///
/// It takes the time of a look-up for each of these events.
///
/// # Errors
///
/// [`NoMemory`] where there was none for the nodes.
pub fn destinations(alloc: Global, area: &Area, script: &Script) -> Result<Vec<Spot>, NoMemory>
    ensures are { IfOk result (λ spots. AreDestinations area.now script.now.events spots.items) }
    ensures within { IfOk result (λ spots. (t : ℕ) → Contains spots.items t → t < length area.now.ids) }
{
    let events = script.events.as_slice();
    let mut known = none_known(alloc, area.count())?;
    let mut spots = Vec::new(alloc);
    for event in events {
        let Some(spot) = destination(area, event) else {
            continue;
        };
        let place = spot.get() as usize;
        if known[place] {
            continue;
        }
        known[place] = true;
        spots.push(spot)?;
    }
    Ok(spots)
}

/// Of so many nodes that none is known.
fn none_known(alloc: Global, count: u16) -> Result<Vec<bool>, NoMemory>
    ensures { IfOk result (λ known. known.items ≡ replicate count false) }
{
    Ok(vec![in alloc; false; count as usize]?)
}

/// The node for which a packet enters by an event, if one does and the area has that node.
fn destination(area: &Area, event: &ScriptEvent) -> Option<Spot>
    ensures enters { (t : ℕ) → (result ≡ Some t) ↔ EntersFor area.now t event.now }
    ensures within { IfSome result (λ spot. spot < length area.now.ids) }
{
    // what the area keeps is told by reading it
    let _area = area.count();
    match event {
        ScriptEvent::Inject { to, .. } => area.find(*to),
        ScriptEvent::Step { .. } => None,
        ScriptEvent::Fail { .. } => None,
    }
}
