ghost use Rattle.std.specs.Prelude.{◌≡◌, ◌+◌, ◌<◌, ◌^◌, IfOk};
ghost use Rattle.payload_forms.specs.Moved.{number_at};

use mlir_base::Memory;

/// The number as one of a step. `Memory` where there can't be so many steps.
pub(crate) fn number(n: u64) -> Result<u32, Memory>
    ensures value { IfOk result (λ m. m ≡ n) }
    ensures small { IfOk result (λ _. n < 2 ^ 32) }
{
    if n > u32::MAX as u64 {
        return Err(Memory);
    }
    Ok(n as u32)
}

pub(crate) fn plus(a: u64, b: u64) -> Result<u64, Memory>
    ensures { IfOk result (λ sum. sum ≡ a + b) }
{
    match a.checked_add(b) {
        Some(sum) => Ok(sum),
        None => Err(Memory),
    }
}

/// The new number of step `i`.
pub(crate) fn number_at(numbers: &[u32], i: usize) -> u32
    ensures { result ≡ number_at numbers.now i }
{
    if i < numbers.len() { numbers[i] } else { 0 }
}
