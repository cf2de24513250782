//! Which color repairs the failure of each element of a primary.

ghost use Rattle.std.specs.Prelude.{◌≡◌, ℕ, IsNone, IsSome, IsTrue, Some, None};
ghost use Rattle.mrt_graph.specs.declared.cert.Color.TheVariants.{Blue, Red};
ghost use Rattle.mrt_report.specs.Repairs.{AreArcElements, AreArcRepairs, AreSecondRepairs, IsRepair};
ghost use Rattle.mrt_report.specs.steps.LineParts.{AreAllParts};
ghost use Rattle.mrt_report.specs.steps.Uses.{TellUses, TellsUse};
ghost use Rattle.mrt_report.specs.steps.Viewed.{viewed};

use crate::elements::{ArcElements, elements_of, elements_of_second};
use crate::parts::Parts;
use crate::row::ArcRepairs;
use crate::uses::{ArcUses, used_of, uses_of};
use area_graph::ArcNo;
use mrt_graph::{Color, Element, RowsOf};
use primary_alt::is_between;

/// Which color repairs a primary, of its first arc and, where there is one, of its second.
#[derive(Clone, Copy)]
pub struct Repairs {
    pub first: ArcRepairs,
    pub second: Option<ArcRepairs>,
}

/// What repairs the primary.
pub fn repairs_of<R: RowsOf>(parts: &Parts<'_, R>) -> Repairs
    requires { AreAllParts (viewed R.rows parts.now) parts.now.to parts.now.primary }
    ensures first { AreArcRepairs (viewed R.rows parts.now) parts.now.to parts.now.primary.first result.first }
    ensures second { AreSecondRepairs (viewed R.rows parts.now) parts.now.to parts.now.primary.second result.second }
{
    let first = elements_of(parts, parts.primary.first);
    let second = elements_of_second(parts, parts.primary.second);
    let blue = uses_of(parts, Color::Blue, &first, &second);
    // red is asked only for what blue uses
    let red = uses_of(
        parts,
        Color::Red,
        &used_of(&first, &blue.first),
        &used_of(&second, &blue.second),
    );
    let of_second = arc_repairs(parts, &second, &blue.second, &red.second);
    Repairs {
        first: arc_repairs(parts, &first, &blue.first, &red.first),
        second: where_there(parts.primary.second, of_second),
    }
}

/// The repairs of an arc that may not be there.
fn where_there(number: Option<ArcNo>, repairs: ArcRepairs) -> Option<ArcRepairs>
    ensures some { IsSome number → result ≡ Some repairs }
    ensures none { IsNone number → result ≡ None }
{
    match number {
        Some(_) => Some(repairs),
        None => None,
    }
}

/// What repairs the failure of each element of an arc.
fn arc_repairs<R: RowsOf>(
    parts: &Parts<'_, R>,
    elements: &ArcElements,
    blue: &ArcUses,
    red: &ArcUses,
) -> ArcRepairs
    requires blue { TellUses (viewed R.rows parts.now) parts.now.to Blue elements.now blue.now }
    requires red_link { IsTrue blue.now.link → TellsUse (viewed R.rows parts.now) parts.now.to Red elements.now.link red.now.link }
    requires red_node { IsTrue blue.now.node → TellsUse (viewed R.rows parts.now) parts.now.to Red elements.now.node red.now.node }
    ensures { (number : ℕ) → AreArcElements (viewed R.rows parts.now) number elements.now.link elements.now.node
        → AreArcRepairs (viewed R.rows parts.now) parts.now.to number result }
{
    ArcRepairs {
        link: repair(parts, &elements.link, blue.link, red.link),
        node: repair(parts, &elements.node, blue.node, red.node),
    }
}

/// The alternate for the destination where an element has failed, which the walk of blue uses or not, and that of red where blue does.
fn repair<R: RowsOf>(
    parts: &Parts<'_, R>,
    failed: &Option<Element>,
    blue: bool,
    red: bool,
) -> Option<Color>
    requires blue { TellsUse (viewed R.rows parts.now) parts.now.to Blue failed.now blue }
    requires red { IsTrue blue → TellsUse (viewed R.rows parts.now) parts.now.to Red failed.now red }
    ensures { IsRepair (viewed R.rows parts.now) parts.now.to failed.now result }
{
    match failed {
        None => Some(Color::Blue),
        Some(x) => color_round(parts, x, blue, red),
    }
}

/// The color whose walk to the destination does not use an element.
fn color_round<R: RowsOf>(parts: &Parts<'_, R>, x: &Element, blue: bool, red: bool) -> Option<Color>
    requires blue { TellsUse (viewed R.rows parts.now) parts.now.to Blue (Some x.now) blue }
    requires red { IsTrue blue → TellsUse (viewed R.rows parts.now) parts.now.to Red (Some x.now) red }
    ensures { IsRepair (viewed R.rows parts.now) parts.now.to (Some x.now) result }
{
    if !is_between(x, parts.source, parts.to) {
        return None;
    }
    if !blue {
        return Some(Color::Blue);
    }
    if !red {
        return Some(Color::Red);
    }
    None
}
