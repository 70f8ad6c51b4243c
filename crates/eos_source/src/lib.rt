//! The kept logs of an evidence whose pieces are read from a source, each once and never whole: a piece is read chunk by
//! chunk, of its data records is kept what is wanted, and the runs of a partition are joined.
//!
//! The source may be a folder of files on any disk. Of which pieces there are the shape says: an
//! evidence whose segments have their names and no bytes. Workers share tickets, the numbers of the pieces: each draws with a seat
//! of its own, each number once. A file is opened when a thread wants it; a log is read once and in order, a fold whole. In memory
//! is what is kept, and for each thread what reading one segment takes.
#![tactic(auto)]

mod again;
mod fold;
pub mod folder_laws;
mod folder_source;
mod joined;
pub mod laws;
mod logs;
mod order;
mod piece;
mod plan;
mod reader;
mod rule;
mod seats;
mod share;
mod slots;
mod source;
mod tickets;

pub use folder_source::{Folder, FolderSource};
pub use logs::{KeptLogs, Tally, kept_logs};
pub use reader::SegmentReader;
pub use source::{Piece, Source};
pub use tickets::{Drawn, MAX_TICKETS, MAX_WORKERS, Seat, Tickets};
