ghost use Rattle.std.specs.Prelude.{◌≡◌, ◌≤◌, IsTrue, ◌↔◌, Contains};
ghost use Rattle.mlir_streams.specs.Causes.{Counted, Rose};

/// A count after one more. It stays at the end of its type.
pub fn raised(count: u64) -> u64
    ensures rose { Rose count result }
    ensures later { count ≤ result }
    ensures counted { Counted count result }
{
    count.saturating_add(1)
}

/// Whether the call of this number, from 1, is to fail.
pub fn is_failing(failing: &[u32], call: u64) -> bool
    ensures { IsTrue result ↔ Contains failing.now call }
{
    failing.iter().any(|number| u64::from(*number) == call)
}
