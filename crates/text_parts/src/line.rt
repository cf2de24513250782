//! Parts of a line in a fixed array, which takes no memory: each put at the end of a line that has room for it.

ghost use Rattle.std.specs.Prelude.{◌≡◌, ◌≤◌, ◌+◌, ◌++◌, decimal, length};
ghost use Rattle.text_parts.specs.Spelling.{address_text};
ghost use Rattle.text_parts.specs.Hops.{hop_text};

use crate::node_text::push_node_text;
use crate::short_text::ShortText;
use itoa::Buffer;
use mrt_graph::{Kind, NodeId};

/// A line of at most 512 bytes.
pub type Line = ShortText<512>;

/// A line that begins so.
pub fn line_of<const N: usize>(part: &[u8]) -> ShortText<N>
    requires { length part.now ≤ N }
    ensures { result ≡ part.now }
{
    let mut line = ShortText::new();
    put(&mut line, part);
    line
}

/// Puts bytes at the end of a line.
pub fn put<const N: usize>(line: &mut ShortText<N>, part: &[u8])
    requires { length line.old + length part.now ≤ N }
    ensures added { line.new ≡ line.old ++ part.now }
    ensures count { length line.new ≡ length line.old + length part.now }
{
    line.put(part);
}

/// Puts a number at the end of a line that has room for 40 bytes, in decimal.
pub fn put_number<const N: usize>(line: &mut ShortText<N>, number: u64)
    requires { length line.old + 40 ≤ N }
    ensures added { line.new ≡ line.old ++ decimal number }
    ensures count { length line.new ≤ length line.old + 40 }
{
    put(line, Buffer::new().format(number).as_bytes());
}

/// Puts an address at the end of a line that has room for 19 bytes.
pub fn put_address<const N: usize>(line: &mut ShortText<N>, number: u32)
    requires { length line.old + 19 ≤ N }
    ensures added { line.new ≡ line.old ++ address_text number }
    ensures count { length line.new ≤ length line.old + 19 }
{
    push_node_text(
        line,
        NodeId {
            kind: Kind::Router,
            number,
        },
    );
}

/// Puts a hop at the end of a line that has room for 39 bytes: the far node, and the link data of the near end as an address.
pub fn put_hop<const N: usize>(line: &mut ShortText<N>, far: NodeId, link_data: u32)
    requires { length line.old + 39 ≤ N }
    ensures added { line.new ≡ line.old ++ hop_text far link_data }
    ensures count { length line.new ≤ length line.old + 39 }
{
    push_node_text(line, far);
    line.push(b'/');
    put_address(line, link_data);
}
