//! Manifests beside their reader: why one is refused, and how one is made for logs that were copied from a broker. It knows
//! no files.
//!
//! A refusal is told in words for the manifest's writer: which element of the file, what stands there and what is wanted. It is
//! asked for after a refusal, reads the text again and finds the first of the tests that fails, in the order of `parse_spec`.
//! A manifest is made of what the words and the lines of Kafka's tool say, which partitions the transaction log lists, and
//! where a log ends. Here stands also the JSON object under construction of the crates above.
#![tactic(auto)]

mod app_word;
mod apps;
mod cause;
mod coordinator;
mod divided;
mod element;
mod folder_name;
mod front;
mod head;
mod json_stop;
mod listing;
mod manifest;
mod names;
mod object;
mod offset_line;
mod position;
mod repeats;
mod search;
mod types;
mod words;

pub use app_word::read_app_word;
pub use cause::{SpecCause, explain_spec};
pub use coordinator::{coordinator_lines, coordinator_of, partitions_of};
pub use folder_name::read_folder_name;
pub use front::front_end;
pub use head::is_compressed_at_head;
pub use listing::listed_in;
pub use manifest::{ManifestFault, has_end, is_judged, manifest_for};
pub use object::Object;
pub use offset_line::{EndsFault, read_ends};
