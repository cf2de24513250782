//! Which calls of a device in memory are to fail.

ghost use Rattle.std.specs.Prelude.{◌≡◌, false};
ghost use Rattle.mrt_io.specs.Memory.{is_failing as failing, NoneFrom};

/// Whether the call of this number is among those that are to fail.
pub(crate) fn is_failing(fails: &[u32], number: u64) -> bool
    ensures value { result ≡ failing number fails.now }
    ensures never { NoneFrom number fails.now → result ≡ false }
{
    fails.iter().any(|call| u64::from(*call) == number)
}
