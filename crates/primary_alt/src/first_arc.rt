//! The first arc of a shortest path, or that there is none, in two bytes.

use area_graph::ArcNo;
use std::marker::Model;

/// The number of the first arc of a shortest path, or none: one more than the number of the arc, and 0 for none.
#[derive(Clone, Copy)]
pub struct FirstArc(u16);

impl Model for FirstArc {
    ghost use Rattle.std.specs.Prelude.{ℕ, Option};

    ghost Value = { Option ℕ };

    ghost use Rattle.primary_alt.specs.steps.NoArc.{arc_by, inside_of, told_again};

    ghost view = { λ first. arc_by first.0 };

    ghost inverse = { λ arc. inside_of arc };

    ghost inverse_ok = { λ first _. told_again first.0 };
}

impl FirstArc {
    ghost use Rattle.std.specs.Prelude.{◌≡◌, ◌<◌, Some, None};

    pub fn none() -> FirstArc
        ensures { result ≡ None }
    {
        FirstArc(0)
    }

    pub fn some(arc: ArcNo) -> FirstArc
        requires { arc < 65535 }
        ensures { result ≡ Some arc }
    {
        FirstArc(arc.get() + 1)
    }

    pub fn get(&self) -> Option<ArcNo>
        ensures { result ≡ self.now }
    {
        if self.0 == 0 {
            None
        } else {
            Some(ArcNo::new(self.0 - 1))
        }
    }
}
