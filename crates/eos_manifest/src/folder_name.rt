//! How the folder of a partition's log is named: its topic, a hyphen and its number.

ghost use Rattle.std.specs.Prelude.{◌≡◌, IfOk, option_map};
ghost use Rattle.eos_manifest.specs.Lines.{name_in, partition_in_name};

use crate::divided::split_at_last;
use eos_base::read_partition;
use eos_evidence::is_topic_name;

/// A topic and a partition's number, where both may be such.
pub(crate) fn read_name_in<'a>(topic: &'a [u8], number: &[u8]) -> Option<(&'a [u8], i32)>
    ensures { option_map (λ r. (r.0.now, r.1)) result ≡ name_in topic.now number.now }
{
    if !is_topic_name(topic) {
        return None;
    }
    let number = read_partition(number)?;
    Some((topic, number))
}

/// The topic and the number of the partition whose log a folder of this name holds.
pub fn read_folder_name(name: &[u8]) -> Option<(&[u8], i32)>
    ensures { option_map (λ r. (r.0.now, r.1)) result ≡ partition_in_name name.now }
{
    let (topic, number) = split_at_last(name, b'-')?;
    read_name_in(topic, number)
}
