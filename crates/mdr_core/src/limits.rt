// Limits, and where each is met.

ghost use Rattle.std.specs.Prelude.{◌≡◌, ◌<◌, ◌≤◌, OnOk, OnErr};
ghost use Rattle.mdr_core.specs.Limits.{most};
ghost use Rattle.mdr_core.specs.Sound.{HasFewNumbers};

use crate::memory_error::{Limit, OutOfMemory};
use crate::numbers::has_few_numbers;
use crate::program::Program;

/// How much there is at most.
pub fn most(limit: Limit) -> u64
    ensures { result ≡ most limit }
{
    match limit {
        Limit::Turns => u64::MAX,
        Limit::Calls => u64::MAX,
        Limit::Allocations => u64::MAX,
        Limit::Messages => u64::MAX - 2,
        Limit::Births => u64::MAX,
        Limit::Blocks => 4_294_967_296,
        Limit::Cells => 4_294_967_295,
        Limit::Bytes => 4_294_967_294,
        Limit::Parts => 16_777_216,
        Limit::Fields => 4_294_967_295,
        Limit::Items => 2_147_483_647,
        Limit::Deep => u64::MAX,
        Limit::Active => 4_294_967_295,
        Limit::Levels => 1_000,
    }
}

/// So much may be there. Memory is wanting exactly where it is too much.
pub fn within(count: u64, limit: Limit) -> Result<(), OutOfMemory>
    ensures ok { OnOk result (count ≤ most limit) }
    ensures err { OnErr result (most limit < count) }
{
    if count <= most(limit) {
        Ok(())
    } else {
        Err(limit.past())
    }
}

/// One more may be there. Memory is wanting exactly where there is as much as can be.
pub fn below(count: u64, limit: Limit) -> Result<(), OutOfMemory>
    ensures ok { OnOk result (count < most limit) }
    ensures err { OnErr result (most limit ≤ count) }
{
    if count < most(limit) {
        Ok(())
    } else {
        Err(limit.past())
    }
}

/// What answers behind the last turn of a loop.
pub fn spent(count: u64, limit: Limit) -> OutOfMemory
    requires { most limit ≤ count }
{
    let _ = count;
    limit.past()
}

/// A program's types, globals, structs and functions are few. Memory is wanting exactly where they aren't.
pub fn few(program: &Program) -> Result<(), OutOfMemory>
    ensures ok { OnOk result (HasFewNumbers program.now) }
    ensures err { OnErr result (HasFewNumbers program.now → ⊥) }
{
    if has_few_numbers(program) {
        Ok(())
    } else {
        Err(Limit::Parts.past())
    }
}
