//! The members of a JSON object that say a partition or a place in one.

ghost use Rattle.std.specs.Prelude.{◌≡◌, OnOk};
ghost use Rattle.serde_json.specs.Data.{put as with_member};
ghost use Rattle.eos_manifest.specs.Objects.{held};
ghost use Rattle.eos_report.specs.Values.{with_partition, with_place, place_value};

use eos_claims::Place;
use eos_manifest::Object;
use std::alloc::AllocError;

#[tactic(auto, unfolding(crate::specs::Values::with_partition))]
pub(crate) fn put_partition(
    out: &mut Object,
    topic: &[u8],
    partition: i32,
) -> Result<(), AllocError>
    ensures { OnOk result (held out.new ≡ with_partition topic.now partition (held out.old)) }
{
    out.put_integer("partition", i64::from(partition))?;
    out.put_text("topic", topic)
}

#[tactic(auto, unfolding(crate::specs::Values::with_place))]
pub(crate) fn put_record(
    out: &mut Object,
    topic: &[u8],
    partition: i32,
    offset: u64,
) -> Result<(), AllocError>
    ensures { OnOk result (held out.new ≡ with_place topic.now partition offset (held out.old)) }
{
    put_partition(out, topic, partition)?;
    out.put_count("offset", offset)
}

/// Puts a member in that is the object of a place.
#[tactic(auto, unfolding(crate::specs::Values::place_value))]
pub(crate) fn put_place(out: &mut Object, name: &str, place: &Place) -> Result<(), AllocError>
    ensures { OnOk result (held out.new ≡ with_member name.now (place_value place.now) (held out.old)) }
{
    let mut made = out.another();
    let of = &place.partition;
    put_record(&mut made, of.topic.as_slice(), of.partition, place.offset)?;
    out.put(name, made.into_value())
}
