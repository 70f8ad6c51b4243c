//! The names of topics: which bytes may be one, and lists of them.

ghost use Rattle.std.specs.Prelude.{◌≡◌, ◌++◌, OnOk};
ghost use Rattle.std.specs.List.{list_all};
ghost use Rattle.eos_evidence.specs.Topics.{is_topic_byte, is_dots, has_topic_length, is_topic, is_internal, is_among};

use bytes::Bytes;
use eos_base::Listed;
use std::alloc::AllocError;

/// The greatest number of bytes of a topic's name.
const MAX_TOPIC_BYTES: usize = 249;

/// Topics, in order.
pub type Topics = Listed<Bytes>;

/// Whether a topic's name may have this byte.
fn may_stand_in_topic(byte: u8) -> bool
    ensures { result ≡ is_topic_byte byte }
{
    byte.is_ascii_alphanumeric() || byte == b'.' || byte == b'_' || byte == b'-'
}

/// Whether this names a folder or the one above it.
fn is_dot_name(topic: &[u8]) -> bool
    ensures { result ≡ is_dots topic.now }
{
    topic == b".".as_slice() || topic == b"..".as_slice()
}

/// Whether a topic's name may be so long.
fn has_length_of_topic(topic: &[u8]) -> bool
    ensures { result ≡ has_topic_length topic.now }
{
    !topic.is_empty() && topic.len() <= MAX_TOPIC_BYTES
}

/// Whether a topic's name may have all these bytes.
fn has_bytes_of_topic(topic: &[u8]) -> bool
    ensures { result ≡ list_all is_topic_byte topic.now }
{
    topic.iter().all(|byte| may_stand_in_topic(*byte))
}

/// Whether these bytes may be a topic's name.
pub fn is_topic_name(topic: &[u8]) -> bool
    ensures { result ≡ is_topic topic.now }
{
    has_length_of_topic(topic) && has_bytes_of_topic(topic) && !is_dot_name(topic)
}

/// Whether Kafka keeps its own records in this topic.
pub fn is_internal_topic(topic: &[u8]) -> bool
    ensures { result ≡ is_internal topic.now }
{
    topic == b"__consumer_offsets".as_slice() || topic == b"__transaction_state".as_slice()
}

/// Whether the topic is one of these.
pub(crate) fn is_one_of(topic: &Bytes, topics: &[Bytes]) -> bool
    ensures { result ≡ is_among topic.now topics.now }
{
    topics.iter().any(|other| *topic == *other)
}

/// Puts these topics at the end.
///
/// # Errors
/// Want of memory alone.
pub fn push_topics(all: &mut Vec<Bytes>, topics: &[Bytes]) -> Result<(), AllocError>
    ensures { OnOk result (all.new.items ≡ all.old.items ++ topics.now) }
{
    for topic in topics {
        all.push(topic.clone()?)?;
    }
    Ok(())
}
