//! `draw` as a command: the verdict over a folder, the picture of a fault of it, and the SVG file that it becomes. It names no script
//! and nothing outside of itself.
#![tactic(auto)]

mod answer;
mod command;
mod folder;
pub mod laws;
mod picture;
mod pictures;
mod when;

pub use command::draw_folder;
pub use eos_picture::{Drawing, Line, Look, Point, Shape, Size, Times, drawing_of, svg_text};
pub use eos_source::Folder;
pub use folder::{Asked, Undrawn, draw_folder_to};
pub use picture::judged_picture;
pub use pictures::{First, first_pictures};
