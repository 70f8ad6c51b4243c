//! The head of a segment's first record batch.
//!
//! | Byte | Field |
//! |---|---|
//! | 0 | base offset, INT64 |
//! | 8 | batch length, INT32 |
//! | 12 | partition leader epoch, INT32 |
//! | 16 | magic, INT8 |
//! | 17 | CRC-32C |
//! | 21 | attributes, INT16, of which the low three bits name the compression |

ghost use Rattle.std.specs.Prelude.{◌≡◌};
ghost use Rattle.eos_manifest.specs.Head.{begins_compressed};

/// Whether a segment's first batch is compressed, by as many bytes of its front as there are; 23 are enough.
pub fn is_compressed_at_head(bytes: &[u8]) -> bool
    ensures { result ≡ begins_compressed bytes.now }
{
    bytes.len() >= 23 && bytes[16] == 2 && bytes[22] % 8 != 0
}
