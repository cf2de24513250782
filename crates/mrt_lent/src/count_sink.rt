//! A sink that counts.

ghost use Rattle.std.specs.Prelude.{◌≡◌, ◌-◌, ◌≤◌, ℕ};

use mrt_io::{PutFailed, Sink};

/// A sink that counts down from the greatest number of 64 bits, one for each byte that it takes, and keeps none.
#[derive(Drop)]
pub struct CountSink {
    pub left: u64,
    pub faults: u64,
}

impl CountSink {
    /// A sink that has taken nothing, without a fault yet.
    pub fn new() -> CountSink
        ensures left { result.left ≡ 18446744073709551615 }
        ensures faults { result.faults ≡ 0 }
    {
        CountSink {
            left: u64::MAX,
            faults: 0,
        }
    }

    /// How many bytes it took.
    pub fn taken(&self) -> u64
        ensures { (n : ℕ) → n ≤ 18446744073709551615 → self.now.left ≡ 18446744073709551615 - n → result ≡ n }
    {
        u64::MAX - self.left
    }
}

impl Sink for CountSink {
    ghost use Rattle.std.specs.Prelude.{◌≡◌, ◌<◌, None};
    ghost use Rattle.mrt_io.specs.Counts.{last_count};

    ghost written = { λ _. None };

    ghost faults = { λ sink. sink.faults };

    // It is healthy for what is left alone, so that whoever says that it stays healthy says how many bytes it took.
    ghost healthy_for = { λ sink n. (n ≡ sink.left) × (sink.faults < last_count) };

    ghost healthy_below = { λ _ _ healthy. healthy.1 };

    /// It takes no time for a byte.
    fn put(&mut self, piece: &[u8]) -> Result<u32, PutFailed> {
        if self.left == 0 {
            self.faults = self.faults.saturating_add(1);
            return Err(PutFailed);
        }
        let most = self.left.min(u64::from(u32::MAX));
        let taken = (piece.len() as u64).min(most);
        self.left -= taken;
        Ok(taken as u32)
    }
}
