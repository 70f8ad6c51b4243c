//! A reading of which counts are enough.

use crate::placed::Placed;
use crate::reading::Reading;
use std::alloc::{AllocError, Global};

/// Keeps nothing of a record, but that it is there.
#[derive(Clone, Copy)]
pub struct Nothing;

impl Reading for Nothing {
    type Kept = Vec<()>;

    ghost kept = { λ s offset r. tt };

    fn keep(
        &self,
        _alloc: Global,
        to: &mut Vec<()>,
        _offset: u64,
        _placed: Placed<'_>,
    ) -> Result<(), AllocError> {
        to.push(())?;
        Ok(())
    }
}
