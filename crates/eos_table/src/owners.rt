//! Which thread looks at which part's log, for the quick walk.

use eos_fold::Close;
use std::alloc::{AllocError, Global};

/// The place of the first of the least.
fn least_of(loads: &[usize]) -> usize {
    let mut least = 0;
    for i in 0..loads.len() {
        if loads[i] < loads[least] {
            least = i;
        }
    }
    least
}

/// The thread for each part, by its list: in turn the one that has least to look at so far.
pub(crate) fn owners_of(
    alloc: Global,
    lists: &[Vec<Close>],
    threads: usize,
) -> Result<Vec<usize>, AllocError> {
    let mut loads = vec![in alloc; 0; threads]?;
    let mut owners = Vec::new(alloc);
    for list in lists {
        let owner = least_of(loads.as_slice());
        owners.push(owner)?;
        if let Some(load) = loads.get_mut(owner) {
            *load = load.saturating_add(list.len().saturating_add(1));
        }
    }
    Ok(owners)
}
