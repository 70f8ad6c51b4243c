//! What a batch says of its producer id, by its fields.
//!
//! | Batch | Touch |
//! |---|---|
//! | data, producerId 0 or more | Data: producerEpoch, transactional (attributes bit 4), baseSequence, number of records |
//! | data, producerId below 0 | none: no idempotent producer wrote it |
//! | control (attributes bit 5), an end marker | End: the marker's producerEpoch, and COMMIT or ABORT |
//! | other control | none |
//!
//! The source is "Record Batch" and "Control Batches" of the Message Format in Kafka's documentation.

ghost use Rattle.std.specs.Prelude.{◌≡◌, ℕ};
ghost use Rattle.eos_batch.specs.declared.batch.Batch.{Batch};
ghost use Rattle.eos_batch.specs.Heads.{head_of};
ghost use Rattle.eos_touch.specs.Touches.{touch_of};

use crate::touch::Touch;
use eos_batch::BatchHead;

/// What a batch says, and of which producer id.
pub fn touch_of(head: &BatchHead) -> Option<(i64, Touch)>
    ensures { (b : Batch) (size : ℕ) → head.now ≡ head_of b size → result ≡ touch_of b }
{
    if head.is_control {
        let marker = head.marker?;
        let touch = Touch::End {
            epoch: marker.epoch,
            kind: marker.kind,
        };
        return Some((marker.producer, touch));
    }
    if head.producer < 0 {
        return None;
    }
    let touch = Touch::Data {
        epoch: head.epoch,
        transactional: head.is_transactional,
        sequence: head.sequence,
        count: head.count,
    };
    Some((head.producer, touch))
}
