//! Rows of tables, with the layout of C.

ghost use Rattle.std.specs.Prelude.{◌≡◌};
ghost use Rattle.cert_format.specs.CertText.{kind_number};
ghost use Rattle.mrt_graph.specs.Tags.{tag_number};
ghost use Rattle.mrt_calls.specs.RowNumbers.{color_number, hop_in, row_in, second_in};

use mrt_graph::{Color, Kind, Tag};
use mrt_report::{ArcRepairs, HopTo, TableRow};

/// Where a packet goes: `struct mrt_hop` in C.
#[repr(C)]
#[derive(Clone, Copy)]
pub struct MrtHop {
    pub kind: u32,
    pub number: u32,
    pub link_data: u32,
}

/// What a router installs for another node of its island: `struct mrt_row` in C.
#[repr(C)]
#[derive(Clone, Copy)]
pub struct MrtRow {
    pub kind: u32,
    pub number: u32,
    pub tag: u32,
    pub reserved_1: u32,
    pub blue: MrtHop,
    pub red: MrtHop,
    pub primary: MrtHop,
    pub repair_link: u8,
    pub repair_node: u8,
    pub repair_second_link: u8,
    pub repair_second_node: u8,
    pub reserved_2: u32,
    pub reserved_3: u32,
}

/// Which color repairs the failures of a second arc, in numbers.
#[derive(Clone, Copy)]
pub(crate) struct Second {
    pub(crate) link: u8,
    pub(crate) node: u8,
}

/// A row in numbers.
pub(crate) fn row_in(row: &TableRow) -> MrtRow
    ensures { result ≡ row_in row.now }
{
    let second = second_in(row.second);
    MrtRow {
        kind: kind_number(row.id.kind),
        number: row.id.number,
        tag: tag_number(row.tag),
        reserved_1: 0,
        blue: hop_in(row.blue),
        red: hop_in(row.red),
        primary: hop_in(row.primary),
        repair_link: color_number(row.first.link),
        repair_node: color_number(row.first.node),
        repair_second_link: second.link,
        repair_second_node: second.node,
        reserved_2: 0,
        reserved_3: 0,
    }
}

/// A hop in numbers.
pub(crate) fn hop_in(hop: HopTo) -> MrtHop
    ensures { result ≡ hop_in hop }
{
    MrtHop {
        kind: kind_number(hop.far.kind),
        number: hop.far.number,
        link_data: hop.link_data,
    }
}

/// What repairs a second arc, if there is one.
fn second_in(repairs: Option<ArcRepairs>) -> Second
    ensures { result ≡ second_in repairs }
{
    match repairs {
        None => Second { link: 0, node: 0 },
        Some(repairs) => Second {
            link: color_number(repairs.link),
            node: color_number(repairs.node),
        },
    }
}

fn kind_number(kind: Kind) -> u32
    ensures { result ≡ kind_number kind }
{
    match kind {
        Kind::Router => 1,
        Kind::Network => 2,
    }
}

fn tag_number(tag: Tag) -> u32
    ensures { result ≡ tag_number tag }
{
    match tag {
        Tag::Sole => 0,
        Tag::Head => 1,
        Tag::Top => 2,
        Tag::Below => 3,
        Tag::Above => 4,
        Tag::Unordered => 5,
        Tag::Carried => 6,
    }
}

fn color_number(color: Option<Color>) -> u8
    ensures { result ≡ color_number color }
{
    match color {
        Some(Color::Blue) => 1,
        Some(Color::Red) => 2,
        None => 3,
    }
}
