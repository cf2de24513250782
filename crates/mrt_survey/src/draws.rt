//! The numbers that a network is made with.

ghost use Rattle.std.specs.Prelude.{◌≡◌, ◌<◌, ◌^◌};
ghost use Rattle.mrt_survey.specs.Draws.{draw_after, with_draw};

/// A stream of draws.
#[derive(Clone, Copy)]
pub struct Draws {
    pub x: u64,
}

impl Draws {
    /// The next draw: the high bits of the number that follows.
    pub fn draw(&mut self) -> u32
        requires { self.old.x < 2 ^ 32 }
        ensures value { result ≡ draw_after 0 self.old.x }
        ensures goes_on { self.new.x ≡ with_draw self.old.x }
        ensures small { self.new.x < 2 ^ 32 }
        ensures draw_small { result < 2 ^ 15 }
    {
        self.x = (self.x * 1_103_515_245 + 12_345) % 0x8000_0000;
        (self.x / 0x1_0000) as u32
    }
}
