//! How often each message is counted, by its bytes.
ghost use Rattle.std.specs.Prelude.{◌≡◌, ℕ, ◌+◌, ◌-◌, if◌then◌else◌, List, IfErr, IfOk};
ghost use Rattle.apex_judge.specs.Prelude.{bytes_eq};
ghost use Rattle.apex_judge.specs.Tally.{times};

use apex_types::OutOfMemory;
use std::alloc::Allocator;
use std::collections::BTreeMap;

/// How often bytes were counted, if at least once. It is a tree, since the bytes come from outside: no choice of bytes
/// makes a look-up slow.
pub(crate) type Tally<A> = BTreeMap<Vec<u8, A>, usize, A>;

/// How often the bytes are counted.
pub(crate) fn times<A: Allocator>(tally: &Tally<A>, bytes: &[u8]) -> usize
    ensures { result ≡ times tally.now bytes.now }
{
    match tally.get(bytes) {
        Some(times) => *times,
        None => 0,
    }
}

/// Counts the bytes once more. Where there is no memory for them, nothing changes.
pub(crate) fn count<A: Allocator + Copy>(
    alloc: A,
    tally: &mut Tally<A>,
    bytes: &[u8],
) -> Result<(), OutOfMemory>
    ensures counted { IfOk result (λ _. (other : List ℕ) → times tally.new other
        ≡ times tally.old other + (if bytes_eq bytes.now other then 1 else 0)) }
    ensures refused { IfErr result (λ _. (other : List ℕ) →
        times tally.new other ≡ times tally.old other) }
{
    let Some(more) = times(tally, bytes).checked_add(1) else {
        return Err(OutOfMemory);
    };
    let key = Vec::from_slice(alloc, bytes)?;
    tally.insert(key, more)?;
    Ok(())
}

/// Counts the bytes once less, if they are counted.
pub(crate) fn uncount<A: Allocator>(tally: &mut Tally<A>, bytes: &[u8])
    ensures { (other : List ℕ) → times tally.new other
        ≡ times tally.old other - (if bytes_eq bytes.now other then 1 else 0) }
{
    if times(tally, bytes) <= 1 {
        tally.remove(bytes);
        return;
    }
    if let Some(times) = tally.get_mut(bytes) {
        *times -= 1;
    }
}
