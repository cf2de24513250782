//! Numbers in network order.

ghost use Rattle.std.specs.Prelude.{◌≡◌, ◌≤◌, ◌+◌, ◌*◌, ◌++◌, IfOk, OnOk, length, drop};
ghost use Rattle.std.specs.Int.{w32, cast_signed};
ghost use Rattle.ospf_lsa.specs.Header.{number_at};
ghost use Rattle.ospf_lsa.specs.steps.Reading.{numbers_in};

use byteorder::{BigEndian, ByteOrder};
use std::alloc::{AllocError, Global};

pub fn number_8(bytes: &[u8], place: usize) -> u8
    requires { place + 1 ≤ length bytes.now }
    ensures { result ≡ number_at place 1 bytes.now }
{
    bytes[place]
}

pub fn number_16(bytes: &[u8], place: usize) -> u16
    requires { place + 2 ≤ length bytes.now }
    ensures { result ≡ number_at place 2 bytes.now }
{
    BigEndian::read_u16(&bytes[place..])
}

pub fn number_32(bytes: &[u8], place: usize) -> u32
    requires { place + 4 ≤ length bytes.now }
    ensures { result ≡ number_at place 4 bytes.now }
{
    BigEndian::read_u32(&bytes[place..])
}

/// A number in two's complement.
pub fn signed_32(bytes: &[u8], place: usize) -> i32
    requires { place + 4 ≤ length bytes.now }
    ensures { result ≡ cast_signed w32 (number_at place 4 bytes.now) }
{
    BigEndian::read_i32(&bytes[place..])
}

/// The bytes after so many.
pub fn after(bytes: &[u8], count: usize) -> &[u8]
    requires { count ≤ length bytes.now }
    ensures { result.now ≡ drop count bytes.now }
{
    &bytes[count..]
}

/// So many numbers of 32 bits.
pub fn numbers(alloc: Global, bytes: &[u8], count: usize) -> Result<Vec<u32>, AllocError>
    requires { 4 * count ≤ length bytes.now }
    ensures { IfOk result (λ numbers. numbers.items ≡ numbers_in count bytes.now) }
{
    let mut numbers = Vec::with_capacity(alloc, count)?;
    add_numbers(&mut numbers, bytes, count)?;
    Ok(numbers)
}

/// Adds so many numbers of 32 bits.
pub fn add_numbers(numbers: &mut Vec<u32>, bytes: &[u8], count: usize) -> Result<(), AllocError>
    requires { 4 * count ≤ length bytes.now }
    ensures { OnOk result (numbers.new.items ≡ numbers.old.items ++ numbers_in count bytes.now) }
{
    numbers.reserve(count)?;
    for i in 0..count {
        numbers.push_reserved(number_32(bytes, 4 * i));
    }
    Ok(())
}
