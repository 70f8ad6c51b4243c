//! The lines of a text.

ghost use Rattle.std.specs.Prelude.{◌≡◌, option_map};
ghost use Rattle.eos_history_lines.specs.steps.Pieces.{IsFirstLine, or_nothing};

/// What stands before the first line feed, and what follows it, if there is one.
pub(crate) fn first_line(text: &[u8]) -> (&[u8], Option<&[u8]>)
    ensures { IsFirstLine text.now result.0.now (option_map (λ s. s.now) result.1) }
{
    for i in 0..text.len() {
        if text[i] == b'\n' {
            return (&text[..i], Some(&text[i + 1..]));
        }
    }
    (text, None)
}

/// What follows a line feed, or nothing where there is none.
pub(crate) fn after_feed(rest: Option<&[u8]>) -> &[u8]
    ensures { result.now ≡ or_nothing (option_map (λ s. s.now) rest.entry) }
{
    match rest {
        Some(rest) => rest,
        None => &[],
    }
}
