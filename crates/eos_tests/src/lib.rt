//! Callers of laws: that what a law asks for can be met is shown where it is called of values that are so.
#![tactic(auto)]

mod laws;

pub use laws::hold_of_samples;
