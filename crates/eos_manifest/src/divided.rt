//! Texts that a mark divides.

ghost use Rattle.std.specs.Prelude.{◌≡◌, ◌<◌, length, option_map};
ghost use Rattle.eos_manifest.specs.Divided.{last_split};
ghost use Rattle.eos_manifest.specs.steps.Pieces.{IsFirstPiece, or_nothing};

/// What stands before the first mark, and what follows it, if there is a mark.
pub(crate) fn first_piece(text: &[u8], mark: u8) -> (&[u8], Option<&[u8]>)
    ensures { IsFirstPiece mark text.now result.0.now (option_map (λ s. s.now) result.1) }
{
    for i in 0..text.len() {
        if text[i] == mark {
            return (&text[..i], Some(&text[i + 1..]));
        }
    }
    (text, None)
}

/// What follows a mark, or nothing where there is none.
pub(crate) fn after_mark(rest: Option<&[u8]>) -> &[u8]
    ensures { result.now ≡ or_nothing (option_map (λ s. s.now) rest.entry) }
{
    match rest {
        Some(rest) => rest,
        None => &[],
    }
}

/// What stands before the last mark and after it.
pub(crate) fn split_at_last(text: &[u8], mark: u8) -> Option<(&[u8], &[u8])>
    ensures { option_map (λ r. (r.0.now, r.1.now)) result ≡ last_split mark text.now }
{
    let mut at = text.len();
    while at > 0 {
        if text[at - 1] == mark {
            return Some((&text[..at - 1], &text[at..]));
        }
        at -= 1;
    }
    None
}
