//! What the outputs of one application claim of its inputs: the claim in a record's headers, the rule that the outputs
//! are exact, and the least fault of it.
//!
//! It speaks of lists of places, claims and commits. Which records these are, a crate above says.
#![tactic(auto)]

mod alone;
mod claim;
mod fault;
mod found;
pub mod laws;
mod neighbours;
mod place;

pub use alone::{LentClaim, SourceTests, is_out_of_range, least_of_claim, least_of_input};
pub use claim::{Claim, ClaimRef, read_claim, view_claim};
pub use fault::{OutputFault, OutputKind};
pub use found::Found;
pub use neighbours::{NumberedClaim, least_of_neighbours};
pub use place::{Place, PlaceRef, SourceRef, source_at};
