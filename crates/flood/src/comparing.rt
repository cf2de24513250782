//! How two databases are compared.

ghost use Rattle.std.specs.Prelude.{IfOk};

use crate::shared_lsdb::SharedLsdb;
use crate::verdict::Verdict;
use mrt_graph::NoMemory;
use std::alloc::Global;

/// A way to compare what two databases tell of a router.
pub trait Compare {
    ghost use Rattle.std.specs.Prelude.{ℕ};
    ghost use Rattle.lsdb.specs.Entries.{Database};
    ghost use Rattle.flood.specs.declared.verdict.Verdict.{Verdict};

    /// What it says of two databases and a router.
    ghost says: { Self → Database → Database → ℕ → Verdict → Type 0 };

    /// Compares two databases.
    ///
    /// # Errors
    ///
    /// [`NoMemory`] where there was none.
    fn compare(
        &self,
        alloc: Global,
        one: &SharedLsdb,
        other: &SharedLsdb,
        router: u32,
    ) -> Result<Verdict, NoMemory>
        ensures { IfOk result (λ verdict. says self.now one.now other.now router verdict) };
}
