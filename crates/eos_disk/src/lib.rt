//! What the program sees of files: a disk that opens and lists, makes and takes away; and evidence as a folder of files, read
//! and written. What stands at a path is a ghost of the disk, so that the contracts above can speak of the bytes of files.
//!
//! In a new folder that evidence was written into stands that evidence and nothing else, so that it is read back.
#![tactic(auto)]

mod cause;
mod change;
mod disk;
mod fault;
mod files;
mod folder;
mod given;
mod host;
pub mod laws;
mod listing;
mod memory;
mod memory_changes;
mod names;
mod paths;
mod putting;
mod refusal;
mod watch;
mod whole_writing;
mod writing;
pub mod written_laws;

pub use cause::Cause;
pub use change::{ChangeFault, DiskMut};
pub use disk::Disk;
pub use fault::DiskFault;
pub use files::{NamedFile, open_file, open_segment, read_segment_file, refusal_of};
pub use folder::{FolderFault, Shape, read_manifest, read_shape};
pub use given::read_given;
pub use host::HostDisk;
pub use listing::{bases_in, bases_of};
pub use memory::{Change, MemoryDisk, MemoryReader, Standing};
pub use names::Form;
pub use paths::{manifest_path, partition_path, segment_path};
pub use putting::{HostFile, NewFile, begin_file, drop_file, end_file, put_file};
pub use refusal::{FoldRefusal, refused_at, refused_fold};
pub use watch::Watch;
pub use whole_writing::write_whole;
pub use writing::{WritingFault, Written, make_folder, write_evidence};
