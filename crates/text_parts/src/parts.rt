//! Parts of a text, each put at its end. Where there is no memory for a part, none of it is put there.

ghost use Rattle.std.specs.Prelude.{◌≡◌, ◌≤◌, ◌+◌, ◌++◌, IfOk, OnErr, decimal, length, vec_capacity, vec_len};
ghost use Rattle.text_parts.specs.Spelling.{node_text};
ghost use Rattle.text_parts.specs.Hops.{hop_text};

use crate::line::put_hop;
use crate::node_text::NodeText;
use crate::short_text::ShortText;
use itoa::Buffer;
use mrt_graph::{NoMemory, NodeId};

/// Puts bytes at the end of a text.
///
/// # Errors
///
/// [`NoMemory`] where there was none for the text, as for each of these; then the text is as it was.
pub fn push(text: &mut Vec<u8>, part: &[u8]) -> Result<(), NoMemory>
    ensures added { IfOk result (λ _. text.new.items ≡ text.old.items ++ part.now) }
    ensures err { OnErr result (text.new.items ≡ text.old.items) }
{
    text.extend_from_slice(part)?;
    Ok(())
}

/// Puts a count at the end of a text, in decimal.
pub fn push_count(text: &mut Vec<u8>, count: u16) -> Result<(), NoMemory>
    ensures added { IfOk result (λ _. text.new.items ≡ text.old.items ++ decimal count) }
    ensures err { OnErr result (text.new.items ≡ text.old.items) }
{
    push(text, Buffer::new().format(count).as_bytes())
}

/// Puts a word and a number at the end of a text, the number in decimal.
pub fn push_number(text: &mut Vec<u8>, word: &[u8], number: u64) -> Result<(), NoMemory>
    ensures added { IfOk result (λ _. text.new.items ≡ text.old.items ++ (word.now ++ decimal number)) }
    ensures err { OnErr result (text.new.items ≡ text.old.items) }
{
    let mut buffer = Buffer::new();
    let digits = buffer.format(number).as_bytes();
    text.reserve(word.len() + digits.len())?;
    put(text, word);
    put(text, digits);
    Ok(())
}

/// Puts a node's name at the end of a text.
pub fn push_node(text: &mut Vec<u8>, id: NodeId) -> Result<(), NoMemory>
    ensures added { IfOk result (λ _. text.new.items ≡ text.old.items ++ node_text id) }
    ensures err { OnErr result (text.new.items ≡ text.old.items) }
{
    push(text, NodeText::new(id).bytes())
}

/// Puts a hop at the end of a text: the far node, and the link data of the near end as an address.
pub fn push_hop(text: &mut Vec<u8>, far: NodeId, link_data: u32) -> Result<(), NoMemory>
    ensures added { IfOk result (λ _. text.new.items ≡ text.old.items ++ hop_text far link_data) }
    ensures err { OnErr result (text.new.items ≡ text.old.items) }
{
    let mut hop: ShortText<39> = ShortText::new();
    put_hop(&mut hop, far, link_data);
    push(text, hop.bytes())
}

/// Puts bytes at the end of a text, in which there is room for them.
fn put(text: &mut Vec<u8>, part: &[u8])
    requires { vec_len text.old + length part.now ≤ vec_capacity text.old }
    ensures added { text.new.items ≡ text.old.items ++ part.now }
    ensures len { vec_len text.new ≡ vec_len text.old + length part.now }
    ensures capacity { vec_capacity text.old ≤ vec_capacity text.new }
{
    text.extend_from_slice(part).unwrap();
}
