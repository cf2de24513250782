//! What the words ask for.

use crate::file_name::FileName;
use crate::task::Task;

/// What the words ask for.
#[derive(Drop)]
pub enum Form<'a> {
    /// Something of a database.
    OfFiles(FileForm<'a>),
    /// The survey of a network that is made from a number and has so many routers.
    Survey { number: u32, nodes: u16 },
    /// The answers to deliveries of packets.
    Flood(FloodForm<'a>),
}

/// What is asked of a database under a profile; without one, under the empty profile.
#[derive(Drop)]
pub struct FileForm<'a> {
    pub database: FileName<'a>,
    pub profile: Option<FileName<'a>>,
    pub task: Task<FileName<'a>, FileName<'a>>,
}

/// A script of deliveries of the packets of a file, under a profile; without one, under the empty profile.
#[derive(Drop)]
pub struct FloodForm<'a> {
    pub updates: FileName<'a>,
    pub profile: Option<FileName<'a>>,
    pub script: FileName<'a>,
}
