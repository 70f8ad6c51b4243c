//! Switches that break a cluster's rules, one each: a checker has to refuse what such a cluster writes, by name.

ghost use Rattle.std.specs.Prelude.{◌≡◌};
ghost use Rattle.eos_machine.specs.Switching.{switch_name, none, only, any_on};

/// A rule that a cluster may be told to break.
#[derive(Clone, Copy)]
pub enum Switch {
    /// A repeated sequence is appended.
    KeepDuplicates,
    /// Data of an old epoch is appended unchecked.
    NoFence,
    /// End markers carry the epoch of the data and are appended unchecked.
    NoBump,
    /// End markers are ticked off and not appended.
    LoseMarker,
    /// End markers on odd partitions of `out` have the other kind.
    SwapMarker,
    /// Records of transactions omit odd partitions of `out`; end markers still go there.
    HideListing,
    /// Offsets of another generation of the group are accepted.
    IgnoreGeneration,
}

impl Switch {
    /// The switch's name, as a program's words have it.
    pub fn name(self) -> &'static str
        ensures { result.now ≡ switch_name self }
    {
        match self {
            Switch::KeepDuplicates => "keep-duplicates",
            Switch::NoFence => "no-fence",
            Switch::NoBump => "no-bump",
            Switch::LoseMarker => "lose-marker",
            Switch::SwapMarker => "swap-marker",
            Switch::HideListing => "hide-listing",
            Switch::IgnoreGeneration => "ignore-generation",
        }
    }
}

/// Which rules a cluster breaks.
#[derive(Clone, Copy)]
pub struct Switches {
    /// A repeated sequence is appended.
    pub keep_duplicates: bool,
    /// Data of an old epoch is appended unchecked.
    pub no_fence: bool,
    /// End markers carry the epoch of the data and are appended unchecked.
    pub no_bump: bool,
    /// End markers are ticked off and not appended.
    pub lose_marker: bool,
    /// End markers on odd partitions of `out` have the other kind.
    pub swap_marker: bool,
    /// Records of transactions omit odd partitions of `out`; end markers still go there.
    pub hide_listing: bool,
    /// Offsets of another generation of the group are accepted.
    pub ignore_generation: bool,
}

impl Switches {
    /// All off.
    pub fn none() -> Switches
        ensures { result ≡ none }
    {
        Switches {
            keep_duplicates: false,
            no_fence: false,
            no_bump: false,
            lose_marker: false,
            swap_marker: false,
            hide_listing: false,
            ignore_generation: false,
        }
    }

    /// All off but one.
    pub fn only(switch: Switch) -> Switches
        ensures { result ≡ only switch }
    {
        let mut switches = Switches::none();
        match switch {
            Switch::KeepDuplicates => switches.keep_duplicates = true,
            Switch::NoFence => switches.no_fence = true,
            Switch::NoBump => switches.no_bump = true,
            Switch::LoseMarker => switches.lose_marker = true,
            Switch::SwapMarker => switches.swap_marker = true,
            Switch::HideListing => switches.hide_listing = true,
            Switch::IgnoreGeneration => switches.ignore_generation = true,
        }
        switches
    }

    /// Whether any is on.
    pub fn any_on(self) -> bool
        ensures { result ≡ any_on self }
    {
        self.keep_duplicates
            || (self.no_fence
                || (self.no_bump
                    || (self.lose_marker
                        || (self.swap_marker || (self.hide_listing || self.ignore_generation)))))
    }
}
