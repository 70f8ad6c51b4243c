//! Whether a JSON value is that of a line.

ghost use Rattle.std.specs.Prelude.{◌≡◌, ◌≢◌, ◌≤◌, ◌++◌, true, false, Some, IfOk, codes, string_bytes};
ghost use Rattle.serde_json.specs.Data.{Data, depth};
ghost use Rattle.serde_json.specs.Read.{read as read_text, max_depth};
ghost use Rattle.serde_json.specs.View.{view};
ghost use Rattle.serde_json.specs.Written.{has_float, compact_text};

use serde_json::Value;
use std::alloc::{AllocError, Global};

/// Whether a value has this line as its text, and so whether it is the line's.
pub(crate) fn is_same(alloc: Global, value: &Value, line: &String) -> Result<bool, AllocError>
    requires { depth (view value.now) ≤ max_depth }
    ensures same { IfOk result (λ same. same ≡ true → (d : Data) → string_bytes line.now ≡ compact_text d ++ codes "\n" → read_text (compact_text d) ≡ Some d → view value.now ≡ d) }
    ensures differ { IfOk result (λ same. same ≡ false → (d : Data) → string_bytes line.now ≡ compact_text d ++ codes "\n" → has_float d ≡ false → view value.now ≢ d) }
{
    let mut text = value.to_string(alloc)?;
    text.push_str("\n")?;
    let same = text == *line;
    Ok(same)
}
