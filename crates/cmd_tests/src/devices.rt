//! Devices in memory, and which of their calls fail.

use mrt_graph::NoMemory;
use mrt_io::MemSink;
use std::alloc::Global;

/// Which call of the shelf fails; of the output its room, how many bytes it takes at a time, and which write fails; and
/// which write of the error stream fails.
#[derive(Clone, Copy)]
pub struct Devices {
    pub read: u32,
    pub room: u32,
    pub step: u32,
    pub write: u32,
    pub error: u32,
}

/// No call of a device has this number.
const NEVER: u32 = u32::MAX;

/// Devices that do not fail, with room for a text of 100,000 bytes.
pub const CALM: Devices = Devices {
    read: NEVER,
    room: 100_000,
    step: NEVER,
    write: NEVER,
    error: NEVER,
};

/// Puts in one more setting, `NAME=NUMBER`, if it is one.
fn set(devices: &mut Devices, setting: &str) -> Option<()> {
    let (name, number) = setting.split_once('=')?;
    let number = number.parse::<u32>().ok()?;
    match name {
        "read" => devices.read = number,
        "room" => devices.room = number,
        "step" => devices.step = number,
        "write" => devices.write = number,
        "error" => devices.error = number,
        _ => return None,
    }
    Some(())
}

/// The devices that the settings tell.
pub fn devices_of(settings: &[&str]) -> Option<Devices> {
    let mut devices = CALM;
    for setting in settings {
        set(&mut devices, setting)?;
    }
    Some(devices)
}

/// The output and the error stream.
pub struct Streams {
    pub out: MemSink,
    pub err: MemSink,
}

impl Drop for Streams {
    fn drop(self) {
        let Self { out: _, err: _ } = self;
    }
}

/// Both streams, of which nothing was written yet.
pub fn new_streams(alloc: Global, devices: Devices) -> Result<Streams, NoMemory> {
    let out = sink(alloc, devices.room, devices.step, devices.write)?;
    let err = sink(alloc, 1000, NEVER, devices.error)?;
    Ok(Streams { out, err })
}

fn sink(alloc: Global, room: u32, step: u32, fails: u32) -> Result<MemSink, NoMemory> {
    MemSink::new(alloc, room, step.max(1), one(alloc, fails))
}

/// The numbers of the calls that fail: this one.
pub fn one(alloc: Global, number: u32) -> Vec<u32> {
    let mut list = Vec::new(alloc);
    let _ = list.push(number);
    list
}
