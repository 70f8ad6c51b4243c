//! The five headers of a claim, as they stand in a record.

ghost use Rattle.std.specs.Option.{option_copied};
ghost use Rattle.std.specs.Prelude.{◌≡◌, ◌++◌, IfOk, OnOk, ◌∷◌, [], Some};
ghost use Rattle.eos_claims.specs.Headers.{values_of};
ghost use Rattle.eos_sought.specs.declared.sought.Sought.TheVariants.{At};
ghost use Rattle.eos_story.specs.HeaderNames.{key_of};
ghost use Rattle.eos_story.specs.Answers.{StandInOrder, IsHeaderRow, header_names};
ghost use Rattle.eos_story.specs.declared.row.Row.TheVariants.{Header as HeaderRow};
ghost use Rattle.eos_story.specs.Questions.{Headers as HeadersOf};
ghost use Rattle.eos_story.specs.steps.Telling.{Tells, TellsEach, IsNext};

use crate::copies::copy_place;
use crate::row::{Row, add_row};
use crate::scene::Scene;
use bytes::Bytes;
use eos_base::Listed;
use eos_batch::Header;
use eos_claims::Place;
use eos_sought::{Sought, find_records};
use std::alloc::{AllocError, Global};

/// The name of a header of a claim.
#[derive(Clone, Copy)]
pub enum HeaderName {
    Topic,
    Partition,
    Offset,
    Output,
    Of,
}

impl HeaderName {
    /// The header's key.
    pub fn key(self) -> &'static str
        ensures { result.now ≡ key_of self }
    {
        match self {
            HeaderName::Topic => "eo.topic",
            HeaderName::Partition => "eo.partition",
            HeaderName::Offset => "eo.offset",
            HeaderName::Output => "eo.output",
            HeaderName::Of => "eo.of",
        }
    }
}

/// With the value of one header more, if it has this key.
fn keep_value(
    values: &mut Listed<Option<Bytes>>,
    key: &str,
    header: &Header,
) -> Result<(), AllocError>
    ensures { OnOk result (values.new ≡ values.old ++ values_of key.now (header.now ∷ [])) }
{
    if header.key.as_slice() == key.as_bytes() {
        values.push(header.value.clone()?)?;
    }
    Ok(())
}

fn values_under(
    alloc: Global,
    key: &str,
    headers: &[Header],
) -> Result<Listed<Option<Bytes>>, AllocError>
    ensures { IfOk result (λ values. values ≡ values_of key.now headers.now) }
{
    let mut values = Listed::new(Vec::new(alloc));
    for header in headers {
        keep_value(&mut values, key, header)?;
    }
    Ok(values)
}

fn push_header(
    scene: &Scene<'_>,
    rows: &mut Vec<Row>,
    place: &Place,
    name: HeaderName,
) -> Result<(), AllocError>
    requires { option_copied scene.now.place ≡ Some place.now }
    ensures { OnOk result (Tells scene.now rows.old.items rows.new.items (IsNext rows.old.items (HeaderRow place.now name (values_of (key_of name) scene.now.headers.now)))) }
{
    let values = values_under(scene.alloc, name.key(), scene.headers)?;
    let place = copy_place(place)?;
    add_row(
        scene,
        rows,
        Row::Header {
            place,
            name,
            values,
        },
    )?;
    Ok(())
}

/// Adds what stands under each of the five names in the headers of the record at the fault's own place.
fn push_names(scene: &Scene<'_>, rows: &mut Vec<Row>, place: &Place) -> Result<(), AllocError>
    requires { option_copied scene.now.place ≡ Some place.now }
    ensures { OnOk result (Tells scene.now rows.old.items rows.new.items (StandInOrder (IsHeaderRow place.now scene.now.headers.now) header_names)) }
{
    push_header(scene, rows, place, HeaderName::Topic)?;
    push_header(scene, rows, place, HeaderName::Partition)?;
    push_header(scene, rows, place, HeaderName::Offset)?;
    push_header(scene, rows, place, HeaderName::Output)?;
    push_header(scene, rows, place, HeaderName::Of)?;
    Ok(())
}

/// The same, if a record is sought so, which is that of this place.
fn push_found(
    scene: &Scene<'_>,
    rows: &mut Vec<Row>,
    place: &Place,
    sought: &Sought,
) -> Result<(), AllocError>
    requires own { option_copied scene.now.place ≡ Some place.now }
    requires at { sought.now ≡ At place.now }
    ensures { OnOk result (TellsEach scene.now rows.old.items rows.new.items (HeadersOf place.now ∷ [])) }
{
    let finds = find_records(scene.alloc, scene.logs, sought, 1)?;
    if finds.first.is_empty() {
        return Ok(());
    }
    push_names(scene, rows, place)?;
    Ok(())
}

/// Adds what stands under each of the five names in the headers of the record at the fault's own place.
pub(crate) fn push_headers(
    scene: &Scene<'_>,
    rows: &mut Vec<Row>,
    place: &Place,
) -> Result<(), AllocError>
    requires { option_copied scene.now.place ≡ Some place.now }
    ensures { OnOk result (TellsEach scene.now rows.old.items rows.new.items (HeadersOf place.now ∷ [])) }
{
    let sought = Sought::At(copy_place(place)?);
    let told = push_found(scene, rows, place, &sought);
    drop(sought);
    told
}
