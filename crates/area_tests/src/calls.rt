//! The calls of rows, and their names.

/// A call.
#[derive(Clone, Copy)]
pub enum Call {
    Bytes,
    Lsas,
    Copies,
    Written,
    Cuts,
    Alike,
    Sums,
    WrittenRouter,
    Longest,
    Install,
    Orders,
    Updates,
    Script,
    Profile,
    Ring,
    Apart,
    Made,
    Area,
    Find,
    Named,
    Numbered,
    Island,
    Primaries,
    LoopFree,
    Routes,
    Alternate,
    Repairs,
    Survey,
}

const CALLS: [(&str, Call); 28] = [
    ("bytes", Call::Bytes),
    ("lsas", Call::Lsas),
    ("copies", Call::Copies),
    ("written", Call::Written),
    ("cuts", Call::Cuts),
    ("alike", Call::Alike),
    ("sums", Call::Sums),
    ("written_router", Call::WrittenRouter),
    ("longest", Call::Longest),
    ("install", Call::Install),
    ("orders", Call::Orders),
    ("updates", Call::Updates),
    ("script", Call::Script),
    ("profile", Call::Profile),
    ("ring", Call::Ring),
    ("apart", Call::Apart),
    ("made", Call::Made),
    ("area", Call::Area),
    ("find", Call::Find),
    ("named", Call::Named),
    ("numbered", Call::Numbered),
    ("island", Call::Island),
    ("primaries", Call::Primaries),
    ("loop_free", Call::LoopFree),
    ("routes", Call::Routes),
    ("alternate", Call::Alternate),
    ("repairs", Call::Repairs),
    ("survey", Call::Survey),
];

/// The call of this name.
pub fn call_named(name: &str) -> Option<Call> {
    for (other, call) in &CALLS {
        if *other == name {
            return Some(*call);
        }
    }
    None
}
