//! The memory that a search keeps for points and replies.

// Lists grow by doubling, so on average they have room for half as many again.

/// What a known point takes in lists, in bytes: its last call.
const LISTED: usize = 12;

/// What a point of the level and of the next one takes in lists besides, in bytes: its entry in a worker's list, its hash
/// and where the hash is found.
const HASHED: usize = 100;

/// What a reply takes in a list, in bytes: a message of the greatest length is part of it.
const REPLY: usize = 1_600;

/// About how many bytes the lists take that hold the points, the hashes of two levels and the replies.
pub(crate) fn size_of(points: usize, hashed: usize, replies: usize) -> usize {
    points
        .saturating_mul(LISTED)
        .saturating_add(hashed.saturating_mul(HASHED))
        .saturating_add(replies.saturating_mul(REPLY))
}
