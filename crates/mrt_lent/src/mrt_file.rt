//! Bytes and files as C hands them in.

/// Bytes that are read: `struct mrt_bytes` in C.
#[repr(C)]
#[derive(Clone, Copy)]
pub struct MrtBytes<'a> {
    pub data: &'a [u8],
}

/// A file's name, any bytes, and what it holds: `struct mrt_file` in C.
#[repr(C)]
#[derive(Clone, Copy)]
pub struct MrtFile<'a> {
    pub name: MrtBytes<'a>,
    pub bytes: MrtBytes<'a>,
}
