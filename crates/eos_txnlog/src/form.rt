//! Which form a version of the value has.

ghost use Rattle.std.specs.Prelude.{◌≡◌};
ghost use Rattle.eos_txnlog.specs.Text.{form_of};

use eos_wire::Form;

/// The form of a version, where it is known: version 0 is plain, version 1 flexible.
pub(crate) fn form_of(version: i16) -> Option<Form>
    ensures { result ≡ form_of version }
{
    match version {
        0 => Some(Form::Plain),
        1 => Some(Form::Flexible),
        _ => None,
    }
}
