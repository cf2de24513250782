//! A sink that fills a buffer.

ghost use Rattle.std.specs.Prelude.{◌≡◌, ◌≤◌, length, take};

use mrt_io::{PutFailed, Sink};

/// A sink that fills a buffer from its front, and fails where the buffer is full.
pub struct LentSink<'a> {
    pub buffer: &'a mut [u8],
    pub count: usize,
    pub faults: u64,
}

impl<'a> LentSink<'a> {
    /// A sink that fills this buffer, without a fault yet.
    pub fn new(buffer: &'a mut [u8]) -> LentSink<'a>
        ensures same_reference { result.buffer.ghost_name ≡ buffer.entry.ghost_name }
        ensures buffer { result.buffer.now ≡ buffer.old }
        ensures count { result.count ≡ 0 }
        ensures faults { result.faults ≡ 0 }
    {
        LentSink {
            buffer,
            count: 0,
            faults: 0,
        }
    }

    /// How many bytes of the buffer are filled.
    pub fn count(&self) -> usize
        ensures { result ≡ length (take self.now.count self.now.buffer.now) }
    {
        self.count.min(self.buffer.len())
    }
}

impl Drop for LentSink<'_> {
    fn drop(self)
        ensures { self.exit.0.now ≡ self.entry.buffer.now }
    {
        let LentSink {
            buffer: _,
            count: _,
            faults: _,
        } = self;
    }
}

impl<'a> Sink for LentSink<'a> {
    ghost use Rattle.std.specs.Prelude.{◌<◌, ◌≤◌, ◌-◌, ◌∷◌, Some, length, take};
    ghost use Rattle.mrt_io.specs.Counts.{last_count};

    // The buffer that is filled and its length stand before the bytes, so that whoever gains bytes still has that buffer.
    ghost written = { λ sink. Some (sink.buffer.ghost_name ∷ length sink.buffer.now ∷ take sink.count sink.buffer.now) };

    ghost faults = { λ sink. sink.faults };

    ghost healthy_for = { λ sink n. (n ≤ length sink.buffer.now - sink.count) × (sink.faults < last_count) };

    ghost healthy_below = { λ _ _ healthy. healthy.1 };

    /// It copies the bytes that it takes once.
    fn put(&mut self, piece: &[u8]) -> Result<u32, PutFailed> {
        if self.count >= self.buffer.len() {
            self.faults = self.faults.saturating_add(1);
            return Err(PutFailed);
        }
        let room = self.buffer.len() - self.count;
        let taken = piece.len().min(room).min(u32::MAX as usize);
        let end = self.count + taken;
        self.buffer[self.count..end].copy_from_slice(&piece[..taken]);
        self.count = end;
        Ok(taken as u32)
    }
}
