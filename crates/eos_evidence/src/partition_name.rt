//! How a partition is named in a manifest and in the folders of a log: its topic, a hyphen and its
//! number in decimal.

ghost use Rattle.std.specs.Prelude.{◌≡◌, option_map};
ghost use Rattle.eos_evidence.specs.PartitionNames.{last_split, partition_of};

use eos_base::read_partition;

/// The topic and the number of a partition's name.
pub(crate) fn read_partition_name(name: &[u8]) -> Option<(&[u8], i32)>
    ensures { option_map (λ r. (r.0.now, r.1)) result ≡ partition_of name.now }
{
    let (topic, number) = split_at_last_hyphen(name)?;
    let number = read_partition(number)?;
    Some((topic, number))
}

/// What stands before the last hyphen and after it.
fn split_at_last_hyphen(name: &[u8]) -> Option<(&[u8], &[u8])>
    ensures { option_map (λ r. (r.0.now, r.1.now)) result ≡ last_split name.now }
{
    let mut at = name.len();
    while at > 0 {
        if name[at - 1] == b'-' {
            return Some((&name[..at - 1], &name[at..]));
        }
        at -= 1;
    }
    None
}
