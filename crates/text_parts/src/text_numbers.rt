//! Numbers and addresses, read from texts.

ghost use Rattle.std.specs.Prelude.{◌≡◌, ◌<◌, ◌≤◌, ◌^◌, ◌++◌, ◌∷◌, ◌↔◌, IsTrue, IsSome, length, slice_index, ℕ, List, Some, decimal};
ghost use Rattle.std.specs.{Option.IfSome, Option.IsSomeAnd, Str.Parse.AllDigits, Str.Parse.digits_value};
ghost use Rattle.mrt_graph.specs.{declared.node_id.Kind.TheVariants.Router, declared.node_id.NodeId.NodeId};
ghost use Rattle.text_parts.specs.Spelling.{address_in, address_text, node_text, number_in};

use crate::text_lines::cut_at;

/// The number that the text spells in decimal, without a sign and without leading zeros.
///
/// `None` exactly where the text is no such number, or one above 4,294,967,295. It takes no memory.
///
/// It takes time in proportion to the text.
pub fn read_number(text: &[u8]) -> Option<u32>
    // What is read is spelled so.
    ensures found { IfSome result (λ number. text.now ≡ decimal number) }
    // What is spelled so is read.
    ensures only { (number : ℕ) → number < 2 ^ 32 → text.now ≡ decimal number → result ≡ Some number }
    // Both in one word.
    ensures value { result ≡ number_in text.now }
{
    number(text)
}

/// The number, without the clause that follows from the others.
fn number(text: &[u8]) -> Option<u32>
    ensures found { IfSome result (λ number. (number < 2 ^ 32) × (text.now ≡ decimal number)) }
    ensures only { (number : ℕ) → number < 2 ^ 32 → text.now ≡ decimal number → result ≡ Some number }
{
    if !is_plain(text) {
        return None;
    }
    let number = value_of(text)?;
    u32::try_from(number).ok()
}

/// Whether a text has from 1 to 10 bytes, the first of which is no zero before others.
fn is_plain(text: &[u8]) -> bool
    ensures { IsTrue result ↔ ((0 < length text.now) × (length text.now ≤ 10) × (slice_index text.now 0 ≡ 48 → length text.now ≡ 1)) }
{
    match text {
        [] => false,
        [b'0', _, ..] => false,
        _ => text.len() <= 10,
    }
}

/// The number that digits write in decimal; `None` exactly where a byte is no digit.
fn value_of(digits: &[u8]) -> Option<u64>
    requires { length digits.now ≤ 10 }
    ensures found { IfSome result (λ number. AllDigits 10 digits.now × (number ≡ digits_value 10 digits.now)) }
    ensures only { AllDigits 10 digits.now → IsSome result }
{
    let mut number = 0;
    for digit in digits {
        if !digit.is_ascii_digit() {
            return None;
        }
        number = number * 10 + u64::from(*digit - b'0');
    }
    Some(number)
}

/// The number whose four bytes, most significant first, the text spells: each in decimal without leading zeros, joined by
/// dots, as in `10.0.0.4`.
///
/// `None` exactly where the text is no address. It takes no memory. [`NodeText`](crate::NodeText) of a router is read back.
pub fn read_address(text: &[u8]) -> Option<u32>
    // What is read is spelled so.
    ensures found { IfSome result (λ number. text.now ≡ address_text number) }
    // What is spelled so is read.
    ensures only { (number : ℕ) → number < 2 ^ 32 → text.now ≡ address_text number → result ≡ Some number }
    // Both in one word.
    ensures value { result ≡ address_in text.now }
    // The text of a router is read back.
    ensures router { (id : NodeId) → id.kind ≡ Router → id.number < 2 ^ 32 → text.now ≡ node_text id
        → result ≡ Some id.number }
{
    address(text)
}

/// The address, without the clause that follows from the others.
fn address(text: &[u8]) -> Option<u32>
    ensures found { IfSome result (λ number. (number < 2 ^ 32) × (text.now ≡ address_text number)) }
    ensures only { (number : ℕ) → number < 2 ^ 32 → text.now ≡ address_text number → result ≡ Some number }
{
    let (a, rest) = read_before_dot(text)?;
    let (b, rest) = read_before_dot(rest)?;
    let (c, rest) = read_before_dot(rest)?;
    let d = read_byte(rest)?;
    Some(u32::from_be_bytes([a, b, c, d]))
}

/// The number of a byte that stands before the first dot, and what stands after the dot.
fn read_before_dot(text: &[u8]) -> Option<(u8, &[u8])>
    ensures found { IfSome result (λ x. text.now ≡ decimal x.0 ++ 46 ∷ x.1.now) }
    ensures only { (number : ℕ) (rest : List ℕ) → number < 2 ^ 8 → text.now ≡ decimal number ++ 46 ∷ rest → IsSomeAnd result (λ x. (x.0 ≡ number) × (x.1.now ≡ rest)) }
{
    let (number, rest) = cut_at(text, b'.')?;
    Some((read_byte(number)?, rest))
}

/// The number of a byte.
fn read_byte(text: &[u8]) -> Option<u8>
    ensures found { IfSome result (λ number. text.now ≡ decimal number) }
    ensures only { (number : ℕ) → number < 2 ^ 8 → text.now ≡ decimal number → result ≡ Some number }
{
    u8::try_from(read_number(text)?).ok()
}
