//! The partitions that a transaction wrote to.

use bytes::Bytes;
use eos_base::Listed;

/// Numbers of partitions, in the order of the record.
pub type Numbers = Listed<i32>;

/// A topic and the numbers of its partitions that are in a transaction.
#[derive(Clone, PartialEq, Eq, Drop)]
pub struct TopicPartitions {
    pub topic: Bytes,
    pub numbers: Numbers,
}

/// The partitions of a transaction by topic, in the order of the record.
pub type Partitions = Listed<TopicPartitions>;
