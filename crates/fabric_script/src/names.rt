//! Names of nodes and of links, as words give them.

ghost use Rattle.std.specs.Prelude.{◌≡◌, ◌<◌, ◌^◌, ◌==◌, ◌++◌, ℕ, IfSome, Some, codes, position};
ghost use Rattle.text_parts.specs.Spelling.{address_text, node_text};
ghost use Rattle.mrt_graph.specs.declared.node_id.NodeId.{NodeId};
ghost use Rattle.fabric_script.specs.declared.event.FailureName.{FailureName};
ghost use Rattle.fabric_script.specs.declared.event.FailureName.TheVariants as names;
ghost use Rattle.fabric_script.specs.Names.{HasNumbers, failure_in, failure_text, link_in, node_in, node_of};

use crate::event::FailureName;
use mrt_graph::{Kind, NodeId};
use text_parts::read_address;

/// The node that a text names: a router by its address, a network by `net:` and its address. None exactly where it
/// names none. It takes no memory.
///
/// It takes time in proportion to the text.
pub fn read_node(text: &[u8]) -> Option<NodeId>
    // What is read is spelled so.
    ensures found { IfSome result (λ id. text.now ≡ node_text id) }
    // What is spelled so is read.
    ensures only { (id : NodeId) → id.number < 2 ^ 32 → text.now ≡ node_text id → result ≡ Some id }
    // Both, as one value.
    ensures value { result ≡ node_in text.now }
{
    match text.strip_prefix(b"net:".as_slice()) {
        Some(address) => node_of(Kind::Network, address),
        None => node_of(Kind::Router, text),
    }
}

/// The node of a kind with the number that an address spells.
fn node_of(kind: Kind, address: &[u8]) -> Option<NodeId>
    ensures found { IfSome result (λ id. (id.kind ≡ kind) × (address.now ≡ address_text id.number)) }
    ensures only { (number : ℕ) → number < 2 ^ 32 → address.now ≡ address_text number
        → result ≡ Some (record { kind = kind; number = number }) }
    ensures value { result ≡ node_of kind address.now }
{
    let number = read_address(address)?;
    Some(NodeId { kind, number })
}

/// What a text names as failed: a node, or by `link:ROUTER/DATA` the link of a router with this link data. None exactly
/// where it names neither. It takes no memory.
///
/// It takes time in proportion to the text.
pub fn read_failure(text: &[u8]) -> Option<FailureName>
    // What is read is spelled so.
    ensures found { IfSome result (λ failed. text.now ≡ failure_text failed) }
    // What is spelled so is read.
    ensures only { (failed : FailureName) → HasNumbers failed → text.now ≡ failure_text failed
        → result ≡ Some failed }
    // Both, as one value.
    ensures value { result ≡ failure_in text.now }
{
    failure(text)
}

/// The same, without the clause that follows from the others.
fn failure(text: &[u8]) -> Option<FailureName>
    ensures found { IfSome result (λ failed. text.now ≡ failure_text failed) }
    ensures value { result ≡ failure_in text.now }
{
    match text.strip_prefix(b"link:".as_slice()) {
        Some(link) => read_link(link),
        None => Some(FailureName::Node(read_node(text)?)),
    }
}

/// The link that a router's address and link data name, with a slash between them.
fn read_link(text: &[u8]) -> Option<FailureName>
    ensures found { IfSome result (λ failed. codes "link:" ++ text.now ≡ failure_text failed) }
    ensures only { (router link_data : ℕ) → router < 2 ^ 32 → link_data < 2 ^ 32
        → codes "link:" ++ text.now ≡ failure_text (names.Link router link_data)
        → result ≡ Some (names.Link router link_data) }
    ensures value { result ≡ link_in text.now }
{
    link(text)
}

/// The same, without the clause that follows from the others.
fn link(text: &[u8]) -> Option<FailureName>
    ensures found { IfSome result (λ failed. codes "link:" ++ text.now ≡ failure_text failed) }
    ensures value { result ≡ link_in text.now }
{
    let slash = first_slash(text)?;
    let (_, link_data) = text.split_at(slash + 1);
    let router = read_address(&text[..slash])?;
    let link_data = read_address(link_data)?;
    Some(FailureName::Link { router, link_data })
}

/// The place of the first slash.
fn first_slash(text: &[u8]) -> Option<usize>
    ensures { result ≡ position (λ byte. byte == 47) text.now }
{
    text.iter().position(|byte| *byte == b'/')
}
