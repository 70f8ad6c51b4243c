//! The command `simulate`: what its words or a schedule make of a simulated cluster, the evidence that this leaves, its
//! folder, and the history of it.
//!
//! Here the simulated cluster and the theorem on every schedule are brought together: of an honest cluster's evidence, as the
//! checker reads it, no fault of the logs stands in it, and there is such evidence wherever there is room.
#![tactic(auto)]

mod bytes_changed;
mod cleaning;
mod collecting;
mod copied;
mod course;
mod cutting;
mod every_command;
mod evidence;
pub mod evidence_laws;
mod exploring;
mod folder;
pub mod folder_laws;
mod folders;
mod history_file;
mod inputs;
mod kept;
mod label_lines;
mod labels;
pub mod laws;
mod leaving;
mod made;
mod making;
mod mistake;
mod names;
mod recipe;
mod replaying;
mod schedule_file;
mod shrink_command;
mod shrinking;
mod shrunk_file;
mod side;
mod swarm;

pub use course::Course;
pub use every_command::simulate_every;
pub use evidence::evidence_of;
pub use exploring::{Accused, Explored, Unexplored, explore};
pub use folder::simulate_folder;
pub use kept::simulate;
pub use labels::{Label, LostTail, Taken, Wrong, labels_of};
pub use leaving::{Unleft, Unsimulated, simulate_to};
pub use making::{SimulationFault, told_to};
pub use replaying::{ReplayFault, replay};
pub use shrink_command::shrink_history;
pub use shrinking::{ShrinkFault, Shrunk, shrink};
pub use shrunk_file::{Unshrunk, shrink_file};
pub use swarm::{Drawn, Rules, drawn_for};
