//! What the two versions of a certificate file differ in.

ghost use Rattle.std.specs.Prelude.{◌≡◌, ◌≤◌};
ghost use Rattle.cert_format.specs.Versions.{most_links, most_nodes, stands_in, tag_count};

use mrt_graph::Row;

/// How many nodes a file has at most.
pub fn most_nodes(version: u16) -> u32
    ensures value { result ≡ most_nodes version }
    ensures small { result ≤ 4096 }
{
    if version == 1 { 2048 } else { 4096 }
}

/// How many links.
pub fn most_links(version: u16) -> u32
    ensures value { result ≡ most_links version }
    ensures small { result ≤ 16384 }
{
    if version == 1 { 8192 } else { 16384 }
}

/// How many tags there are, from 0 on: version 2 has no Carried rows.
pub fn tag_count(version: u16) -> u8
    ensures value { result ≡ tag_count version }
    ensures small { result ≤ 7 }
{
    if version == 1 { 7 } else { 6 }
}

/// Whether a row stands in a file: in version 1 each does, in version 2 each that is not Carried.
pub fn stands_in(version: u16, row: &Row) -> bool
    ensures { result ≡ stands_in version row.now }
{
    version == 1 || row.is_near()
}
