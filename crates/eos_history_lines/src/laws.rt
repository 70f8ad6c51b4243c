//! What holds of the values of lines. With it a line that is written is read back as itself: its text reads as its value, and no
//! other line has this value.

ghost use Rattle.std.specs.Prelude.{◌≡◌};
ghost use Rattle.eos_history_lines.specs.Fits.{FitsRow};
ghost use Rattle.eos_history_lines.specs.Lines.{head_value, row_value};
ghost use Rattle.eos_history_lines.specs.declared.line.Head.{Head};
ghost use Rattle.eos_history_lines.specs.declared.line.Row.{Row};

/// Two first lines of one value are one.
pub fn heads_apart()
    ensures { (head other : Head) → head_value head ≡ head_value other → head ≡ other }
{}

/// Two lines after the first of one value are one.
pub fn rows_apart()
    ensures { (row other : Row) → FitsRow row → FitsRow other → row_value row ≡ row_value other → row ≡ other }
{}
