//! How a shape looks.

ghost use Rattle.std.specs.Prelude.{◌≡◌};
ghost use Rattle.eos_picture.specs.Looks.{look_text};

/// How a shape or a text looks: what it stands for, of which its colours follow. Colours differ in lightness too, and no two
/// kinds of shape by their colour alone, so that nobody has to tell colours apart.
#[derive(Clone, Copy)]
pub enum Look {
    /// The page.
    Page,
    /// The ground of a column.
    Column,
    /// The line below a row.
    Row,
    /// A record that is committed.
    Committed,
    /// A record that is aborted.
    Aborted,
    /// A record of which nothing is decided.
    Open,
    /// An end marker that commits.
    CommitMarker,
    /// An end marker that aborts.
    AbortMarker,
    /// An end marker that should be there.
    Missing,
    /// Offsets that a commit passed.
    Passed,
    /// Offsets that would have been passed, had the commit held.
    NotPassed,
    /// A ring around a place of the fault.
    Fault,
    /// An arc between places of the fault.
    FaultArc,
    /// The title.
    Title,
    /// The name of a column.
    Heading,
    /// Plain words.
    Words,
    /// Words on a dark ground.
    LightWords,
    /// Words that explain.
    Remark,
    /// Words about the fault.
    FaultWords,
}

impl Look {
    /// The attributes, each after a space.
    #[tactic(auto, unfolding(crate::specs::Looks::look_text))]
    pub(crate) fn attributes(self) -> &'static str
        ensures { result.now ≡ look_text self }
    {
        match self {
            Look::Page => " class=\"page\" fill=\"#ffffff\"",
            Look::Column => " class=\"column\" fill=\"#f4f4f4\"",
            Look::Row => " class=\"row\" stroke=\"#c8c8c8\"",
            Look::Committed => " class=\"committed\" fill=\"#0072b2\" stroke=\"#003f63\"",
            Look::Aborted => " class=\"aborted\" fill=\"#d4d4d4\" stroke=\"#8c8c8c\"",
            Look::Open => " class=\"open\" fill=\"#ffffff\" stroke=\"#003f63\"",
            Look::CommitMarker => " class=\"commit-marker\" fill=\"#0072b2\" stroke=\"#003f63\"",
            Look::AbortMarker => " class=\"abort-marker\" fill=\"#ffffff\" stroke=\"#6e6e6e\"",
            Look::Missing => {
                " class=\"missing\" fill=\"#ffffff\" stroke=\"#d00000\" stroke-width=\"2\" stroke-dasharray=\"3 2\""
            }
            Look::Passed => " class=\"passed\" fill=\"#e3eff7\" stroke=\"#0072b2\"",
            Look::NotPassed => {
                " class=\"not-passed\" fill=\"#f4f4f4\" stroke=\"#8c8c8c\" stroke-dasharray=\"3 3\""
            }
            Look::Fault => " class=\"fault\" fill=\"none\" stroke=\"#d00000\" stroke-width=\"3\"",
            Look::FaultArc => {
                " class=\"fault-arc\" fill=\"none\" stroke=\"#d00000\" stroke-width=\"1.5\" stroke-dasharray=\"5 3\""
            }
            Look::Title => " class=\"title\" font-size=\"13\" font-weight=\"bold\"",
            Look::Heading => " class=\"heading\" font-weight=\"bold\"",
            Look::Words => " class=\"words\"",
            Look::LightWords => " class=\"words\" fill=\"#ffffff\"",
            Look::Remark => " class=\"remark\" fill=\"#555555\"",
            Look::FaultWords => " class=\"fault-words\" fill=\"#b00000\"",
        }
    }
}
