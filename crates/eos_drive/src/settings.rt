//! What a run is besides its script.

ghost use Rattle.std.specs.Prelude.{◌≡◌, [], None, false};
ghost use Rattle.eos_drive.specs.Rates.{today};

use crate::mishap::ChosenMishap;
use crate::rates::Rates;
use eos_cluster::Switches;

/// What a run is besides its script.
#[derive(Clone, Copy)]
pub struct Settings<'a> {
    /// How often what is said.
    pub rates: Rates,
    /// Whether each sender and receiver have a queue of messages of their own; else there is one queue.
    pub links: bool,
    /// Whether the cluster's switches are set inside the script, or right after its last word.
    pub turning: Option<Turning>,
    /// How many leaders are lost whose followers lack their last records.
    pub unclean: u64,
    /// The mistakes that the applications make.
    pub mishaps: &'a [ChosenMishap],
    /// Whether the run ends after its last word, and what is left isn't processed.
    pub stops: bool,
}

/// That the switches of a cluster are set.
#[derive(Clone, Copy)]
pub struct Turning {
    /// After so many words; after more than the script has they never are.
    pub after: u64,
    /// What they are set to.
    pub switches: Switches,
}

impl<'a> Settings<'a> {
    /// Today's rates, one queue, no switch and no mishap.
    pub fn today() -> Settings<'a>
        ensures rates { result.rates ≡ today }
        ensures links { result.links ≡ false }
        ensures turning { result.turning ≡ None }
        ensures unclean { result.unclean ≡ 0 }
        ensures mishaps { result.mishaps.now ≡ [] }
        ensures stops { result.stops ≡ false }
    {
        Settings {
            rates: Rates::TODAY,
            links: false,
            turning: None,
            unclean: 0,
            mishaps: &[],
            stops: false,
        }
    }
}
