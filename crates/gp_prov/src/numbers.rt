//! Numbers of columns and rows, which have 32 bits. One that is larger counts as running out of memory: the query that needs
//! it takes gigabytes itself.

ghost use Rattle.std.specs.Prelude.{◌≡◌, ◌+◌, IfOk};

use gp_base::NoMemory;

/// The sum of two numbers.
pub(crate) fn add(number: u32, more: u32) -> Result<u32, NoMemory>
    ensures { IfOk result (λ n. n ≡ number + more) }
{
    number.checked_add(more).ok_or(NoMemory)
}

/// The length of a list.
pub(crate) fn count(length: usize) -> Result<u32, NoMemory>
    ensures { IfOk result (λ n. n ≡ length) }
{
    u32::try_from(length).ok().ok_or(NoMemory)
}
