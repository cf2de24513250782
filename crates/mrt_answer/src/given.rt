//! What a form is given.

use lsdb::Lsdb;
use mrt_island::Profile;
use std::marker::Model;

/// A database whose LSAs do not contradict each other, and a profile.
pub struct Given {
    pub(crate) database: Lsdb,
    pub(crate) profile: Profile,
}

impl Drop for Given {
    fn drop(self) {
        let Self {
            database: _,
            profile: _,
        } = self;
    }
}

impl Model for Given {
    ghost use Rattle.std.specs.Prelude.{◌≡◌, None};
    ghost use Rattle.lsdb.specs.Conflicts.{least_conflict};
    ghost use Rattle.mrt_answer.specs.Input.{Input};
    ghost use Rattle.mrt_answer.specs.steps.Input.{input_with};

    ghost Value = { Input };

    ghost view = { λ given. input_with given.database.entries given.profile };

    ghost invariant = { λ given. least_conflict given.database.entries ≡ None };
}
