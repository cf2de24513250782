ghost use Rattle.std.specs.Prelude.{◌≡◌, ◌<◌, ◌≤◌, ◌+◌, ◌/◌, ◌%◌, ◌++◌, ◌∷◌, [], length, decimal};
ghost use Rattle.text_parts.specs.Spelling.{address_text, node_text};

use crate::short_text::ShortText;
use mrt_graph::{Kind, NodeId};
use std::marker::Model;

/// A node's name as texts show it: `1.1.1.1` for a router, `net:10.0.0.4` for a network.
///
/// It holds at most 19 bytes and takes no memory.
#[derive(Drop)]
pub struct NodeText {
    text: ShortText<19>,
}

impl Model for NodeText {
    ghost use Rattle.std.specs.Prelude.{List, ℕ};

    ghost Value = { List ℕ };

    ghost view = { λ node. node.text };
}

impl NodeText {
    ghost use Rattle.text_parts.specs.Spelling.{node_text};

    /// The name of a node.
    pub fn new(id: NodeId) -> NodeText
        ensures { result ≡ node_text id }
    {
        let mut text = ShortText::new();
        push_node_text(&mut text, id);
        NodeText { text }
    }

    /// Its bytes, at most 19.
    pub fn bytes(&self) -> &[u8]
        ensures value { result.now ≡ self.now }
        ensures short { length result.now ≤ 19 }
    {
        self.text.bytes()
    }
}

/// Puts a node's name after the text, in which there is room for it. It takes no memory.
pub fn push_node_text<const N: usize>(text: &mut ShortText<N>, id: NodeId)
    requires { length text.old + 19 ≤ N }
    ensures value { text.new ≡ text.old ++ node_text id }
    ensures short { length text.new ≤ length text.old + 19 }
{
    match id.kind {
        Kind::Router => push_address(text, id.number),
        Kind::Network => {
            text.put(b"net:");
            push_address(text, id.number);
        }
    }
}

/// Puts an address after the text.
fn push_address<const N: usize>(text: &mut ShortText<N>, number: u32)
    requires { length text.old + 15 ≤ N }
    ensures value { text.new ≡ text.old ++ address_text number }
    ensures short { length text.new ≤ length text.old + 15 }
{
    let [a, b, c, d] = number.to_be_bytes();
    push_decimal(text, a);
    text.push(b'.');
    push_decimal(text, b);
    text.push(b'.');
    push_decimal(text, c);
    text.push(b'.');
    push_decimal(text, d);
}

/// Puts a byte's number after the text.
fn push_decimal<const N: usize>(text: &mut ShortText<N>, number: u8)
    requires { length text.old + 3 ≤ N }
    ensures value { text.new ≡ text.old ++ decimal number }
    ensures short { length text.new ≤ length text.old + 3 }
{
    if number >= 100 {
        text.push(digit(number / 100));
        push_pair(text, number % 100);
    } else if number >= 10 {
        push_pair(text, number);
    } else {
        text.push(digit(number));
    }
}

/// Puts two digits after the text.
fn push_pair<const N: usize>(text: &mut ShortText<N>, number: u8)
    requires room { length text.old + 2 ≤ N }
    requires two { number < 100 }
    ensures value { text.new ≡ text.old ++ (48 + number / 10) ∷ (48 + number % 10) ∷ [] }
    ensures len { length text.new ≡ length text.old + 2 }
{
    text.push(digit(number / 10));
    text.push(digit(number % 10));
}

/// The byte of a digit.
fn digit(number: u8) -> u8
    requires { number < 10 }
    ensures { result ≡ 48 + number }
{
    b'0' + number
}
