//! Partitions and the keys of claims, cut into shares that threads take side by side.

ghost use Rattle.std.specs.Prelude.{◌≤◌, [], length, IfOk};
ghost use Rattle.eos_lineage.specs.steps.Shares.{Follow};

use eos_base::Workers;
use std::alloc::{AllocError, Global};

/// What one thread takes: the partitions from one index up to another one, and the keys that should be those of their
/// inputs.
#[derive(Clone, Copy)]
pub(crate) struct Share<'k> {
    pub(crate) from: usize,
    pub(crate) until: usize,
    pub(crate) keys: &'k [u64],
}

/// The index of the source's partition in a key.
fn partition_in(key: u64) -> usize {
    (key / 4503599627370496) as usize
}

/// How many keys, which are in order, have a partition before this index.
fn count_before(keys: &[u64], place: usize) -> usize
    ensures { result ≤ length keys.now }
{
    keys.partition_point(|key| partition_in(*key) < place)
}

/// The index before which about so many of the keys are, which are in order.
fn partition_after(keys: &[u64], count: usize) -> usize {
    let Some(key) = keys.get(count) else {
        return usize::MAX;
    };
    let place = partition_in(*key);
    let below = count_before(keys, place);
    let next = place.saturating_add(1);
    let through = count_before(keys, next);
    if through.saturating_sub(count) < count.saturating_sub(below) {
        next
    } else {
        place
    }
}

/// Cuts partitions and keys in order into shares that have about as many keys each, one for each of so many threads at
/// most. A partition and its keys are never cut apart.
pub(crate) fn cut_shares<'k>(
    alloc: Global,
    workers: Workers,
    parts: usize,
    keys: &'k [u64],
) -> Result<Vec<Share<'k>>, AllocError>
    ensures { IfOk result (λ shares. Follow 0 keys.entry.now shares.items parts []) }
{
    let threads = workers.get() as usize;
    let size = keys.len() / threads;
    let mut shares = Vec::new(alloc);
    let mut from = 0;
    let mut left = keys;
    for i in 1..threads {
        let until = partition_after(keys, size.saturating_mul(i)).min(parts);
        if until > from {
            let (run, rest) = left.split_at(count_before(left, until));
            shares.push(Share {
                from,
                until,
                keys: run,
            })?;
            from = until;
            left = rest;
        }
    }
    shares.push(Share {
        from,
        until: parts,
        keys: left,
    })?;
    Ok(shares)
}
