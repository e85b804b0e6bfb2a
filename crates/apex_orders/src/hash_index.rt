//! Hashes in the order in which they were found, with a table to look them up.
ghost use Rattle.std.specs.Prelude.{◌≡◌, ◌<◌, ◌≤◌, ◌+◌, ◌++◌, ◌∷◌, [], ◌^◌, ℕ, length, slice_get, Some, IfOk, OnOk};
ghost use Rattle.apex_orders.specs.Buckets.{bucket_of, AreChained, AreFiled, AreFiledBelow, AreNone, IsLastOf, IsUpToLast};

use apex_types::OutOfMemory;
use std::alloc::Global;
use std::marker::Model;

/// The first number of buckets. It doubles whenever there are half as many hashes, so that most buckets are empty.
const FIRST_BUCKETS: usize = 1_021;

/// Hashes, in the order in which they were found. A contract sees them as a list.
#[derive(Drop)]
pub(crate) struct HashIndex {
    hashes: Vec<u64>,
    /// For each hash, the place of the last one before it in the same bucket. A place is an index plus 1, or 0 for none.
    earlier: Vec<u32>,
    /// For each bucket, the place of its last hash.
    last: Vec<u32>,
}

impl Model for HashIndex {
    ghost use Rattle.std.specs.Prelude.{ℕ, List};
    ghost use Rattle.apex_orders.specs.Buckets.{AreFiled};

    ghost Value = { List ℕ };

    ghost view = { λ index. index.hashes.items };

    ghost invariant = { λ index.
        AreFiled index.hashes.items index.earlier.items index.last.items };
}

impl HashIndex {
    /// No hashes.
    pub(crate) fn new(alloc: Global) -> Result<HashIndex, OutOfMemory>
        ensures { IfOk result (λ hashes. hashes ≡ []) }
    {
        let last = no_places(alloc, FIRST_BUCKETS)?;
        Ok(HashIndex {
            hashes: Vec::new(alloc),
            earlier: Vec::new(alloc),
            last,
        })
    }

    /// Removes all hashes, and keeps their memory.
    pub(crate) fn clear(&mut self)
        ensures { self.new ≡ [] }
    {
        self.hashes.clear();
        self.earlier.clear();
        self.last.as_mut_slice().fill(0);
    }

    /// Adds a hash. There is room for 2^32 - 1 of them.
    pub(crate) fn push(&mut self, alloc: Global, hash: u64) -> Result<(), OutOfMemory>
        ensures { OnOk result (self.new ≡ self.old ++ hash ∷ []) }
    {
        let index = self.hashes.len();
        if index >= u32::MAX as usize {
            return Err(OutOfMemory);
        }
        let hashes = self.hashes.as_slice();
        spread(alloc, hashes, &mut self.earlier, &mut self.last)?;
        self.earlier.push(0)?;
        self.hashes.push(hash)?;
        let more = self.hashes.as_slice();
        file(more, &mut self.earlier, &mut self.last, index);
        Ok(())
    }

    /// The number of hashes up to the last that equals this one; 0 if none does.
    pub(crate) fn up_to_last(&self, hash: u64) -> usize
        ensures { IsUpToLast self.now hash (length self.now) result }
    {
        let buckets = self.last.len();
        let b = bucket_of(hash, buckets);
        let first = self.last[b];
        let hashes = self.hashes.as_slice();
        let earlier = self.earlier.as_slice();
        let end = hashes.len();
        up_to_equal(hashes, earlier, buckets, hash, end, first)
    }

    /// The number of hashes up to the last before the index that equals the one there; 0 if none does.
    pub(crate) fn up_to_earlier(&self, hash: u64, index: usize) -> usize
        requires { slice_get self.now index ≡ Some hash }
        ensures { IsUpToLast self.now hash index result }
    {
        let buckets = self.last.len();
        let hashes = self.hashes.as_slice();
        let earlier = self.earlier.as_slice();
        let first = earlier[index];
        up_to_equal(hashes, earlier, buckets, hash, index, first)
    }
}

/// Follows the places in a bucket from the first of these to one with the hash.
fn up_to_equal(
    hashes: &[u64],
    earlier: &[u32],
    buckets: usize,
    hash: u64,
    end: usize,
    first: u32,
) -> usize
    requires buckets { 0 < buckets }
    requires chained { AreChained hashes.now earlier.now buckets (length hashes.now) }
    requires end { end ≤ length hashes.now }
    requires first { IsLastOf hashes.now buckets (bucket_of hash buckets) end first }
    ensures { IsUpToLast hashes.now hash end result }
{
    prove!(buckets > 0 && first as usize <= end);
    let mut at = first as usize;
    while at > 0 {
        if hashes[at - 1] == hash {
            return at;
        }
        at = earlier[at - 1] as usize;
    }
    0
}

/// Buckets without hashes.
fn no_places(alloc: Global, buckets: usize) -> Result<Vec<u32>, OutOfMemory>
    ensures count { IfOk result (λ places. length places.items ≡ buckets) }
    ensures none { IfOk result (λ places. AreNone places.items) }
{
    let places = vec![in alloc; 0u32; buckets]?;
    Ok(places)
}

/// The number of the hash's bucket.
fn bucket_of(hash: u64, buckets: usize) -> usize
    requires { 0 < buckets }
    ensures { result ≡ bucket_of hash buckets }
{
    (hash % 4_294_967_296) as usize % buckets
}

/// Files the hashes in more buckets if there are half as many hashes as buckets.
fn spread(
    alloc: Global,
    hashes: &[u64],
    earlier: &mut Vec<u32>,
    last: &mut Vec<u32>,
) -> Result<(), OutOfMemory>
    requires filed { AreFiled hashes.now earlier.old.items last.old.items }
    requires few { length hashes.now < 2 ^ 32 }
    ensures { AreFiled hashes.now earlier.new.items last.new.items }
{
    if hashes.len() < last.len() / 2 {
        return Ok(());
    }
    let buckets = last.len().saturating_mul(2).saturating_add(1);
    let mut more = no_places(alloc, buckets)?;
    for index in 0..hashes.len() {
        file(hashes, earlier, &mut more, index);
    }
    *last = more;
    Ok(())
}

/// Files the hash at the index, where all before it are filed.
fn file(hashes: &[u64], earlier: &mut Vec<u32>, last: &mut Vec<u32>, index: usize)
    requires within { index < length hashes.now }
    requires few { index + 1 < 2 ^ 32 }
    requires filed { AreFiledBelow hashes.now earlier.old.items last.old.items index }
    ensures { AreFiledBelow hashes.now earlier.new.items last.new.items (index + 1) }
{
    let hash = hashes[index];
    let b = bucket_of(hash, last.len());
    let place = last[b];
    earlier[index] = place;
    last[b] = index as u32 + 1;
}
