//! Copies of LSAs.

ghost use Rattle.std.specs.Prelude.{◌≡◌, IfOk};

use crate::lsa::{Body, Lsa};
use mrt_graph::{NoMemory, Seq};
use std::alloc::Global;

impl Lsa {
    /// An equal LSA.
    ///
    /// It takes time in proportion to the LSA's bytes.
    ///
    /// # Errors
    ///
    /// [`NoMemory`] where there was none for its lists.
    pub fn copy(&self, alloc: Global) -> Result<Lsa, NoMemory>
        ensures { IfOk result (λ lsa. lsa ≡ self.now) }
    {
        Ok(Lsa {
            at: self.at,
            age: self.age,
            options: self.options,
            kind: self.kind,
            id: self.id,
            router: self.router,
            sequence: self.sequence,
            checksum: self.checksum,
            body: body(alloc, &self.body)?,
        })
    }
}

fn body(alloc: Global, body: &Body) -> Result<Body, NoMemory>
    ensures { IfOk result (λ copy. copy ≡ body.now) }
{
    match body {
        Body::Router {
            flags,
            spare,
            links,
            tos,
        } => Ok(Body::Router {
            flags: *flags,
            spare: *spare,
            links: list(alloc, links)?,
            tos: list(alloc, tos)?,
        }),
        Body::Network { mask, routers } => Ok(Body::Network {
            mask: *mask,
            routers: list(alloc, routers)?,
        }),
        Body::Other { bytes } => Ok(Body::Other {
            bytes: list(alloc, bytes)?,
        }),
    }
}

fn list<T: Copy>(alloc: Global, list: &Seq<T>) -> Result<Seq<T>, NoMemory>
    ensures { IfOk result (λ copy. copy ≡ list.now) }
{
    Ok(Seq::from_vec(Vec::from_slice(alloc, list.as_slice())?))
}
