//! A log as far as it was fed. Of its bytes only those that wait for more are held.

ghost use Rattle.std.specs.Prelude.{◌≡◌, ◌≤◌, ◌++◌, ℕ, List, [], length, drop, IfOk};

use crate::fold::ByteFold;
use bytes::BytesMut;
use std::alloc::{AllocError, Global};
use std::marker::Model;

/// What is fed, and the bytes that wait for more.
#[derive(Drop)]
pub struct Feed<F> {
    fold: F,
    buffer: BytesMut,
}

impl<F> Model for Feed<F> {
    ghost use Rattle.eos_fold.specs.ChunkViews.{FeedView};

    ghost Value = { FeedView F };

    ghost view = { λ f. record { fold = f.fold; waiting = f.buffer.items } };
}

/// Has bytes taken from the front of a buffer, and gives what is left.
fn take_from<F: ByteFold>(
    alloc: Global,
    told: &F::Told,
    fold: &mut F,
    buffer: BytesMut,
) -> Result<BytesMut, AllocError>
    ensures { IfOk result (λ left. (fed waiting more : List ℕ) → F.holds told.now fold.old fed waiting → buffer.items ≡ waiting ++ more
        → F.holds told.now fold.new (fed ++ more) left.items) }
{
    let bytes = buffer.freeze()?;
    let taken = fold.take(alloc, told, &bytes)?;
    match bytes.try_into_mut() {
        Ok(mut left) => {
            left.advance(taken);
            Ok(left)
        }
        // Somebody shares the block: it lives on for them.
        Err(bytes) => Ok(BytesMut::copy_from_slice(alloc, &bytes.as_slice()[taken..])?),
    }
}

impl<F: ByteFold + Drop> Feed<F> {
    /// Before the first byte.
    pub fn new(alloc: Global, fold: F) -> Feed<F>
        ensures fold { result.fold ≡ fold }
        ensures waiting { result.waiting ≡ [] }
    {
        Feed {
            fold,
            buffer: BytesMut::new(alloc),
        }
    }

    /// A chunk more.
    ///
    /// # Errors
    /// Only want of memory; what was fed is lost.
    pub fn feed(self, alloc: Global, told: &F::Told, chunk: &[u8]) -> Result<Feed<F>, AllocError>
        ensures { IfOk result (λ after. (fed : List ℕ) → F.holds told.now self.fold fed self.waiting → F.holds told.now after.fold (fed ++ chunk.now) after.waiting) }
    {
        let Feed {
            mut fold,
            mut buffer,
        } = self;
        buffer.extend_from_slice(chunk)?;
        let left = take_from(alloc, told, &mut fold, buffer)?;
        Ok(Feed { fold, buffer: left })
    }

    /// What was fed, and the number of bytes that still wait for more.
    pub fn finish(self) -> (F, usize)
        ensures fold { result.0 ≡ self.fold }
        ensures waiting { result.1 ≡ length self.waiting }
    {
        let waiting = self.buffer.len();
        (self.fold, waiting)
    }
}
