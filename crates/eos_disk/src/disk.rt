//! What is asked of a disk.

use crate::fault::DiskFault;
use bytes::Bytes;
use std::alloc::Global;
use std::io::Read;

/// What files are read from. Threads share it. What is known of it doesn't change while it is lent. A path is its text: two texts are two
/// paths, whatever the system makes of them.
pub trait Disk: Sync {
    ghost use Rattle.std.specs.Prelude.{◌≡◌, ℕ, List, IfOk, Err};
    ghost use Rattle.eos_disk.specs.Entries.{Entry, Leaves, HasNames, MayBeAbsent, MayLackFile};
    ghost use Rattle.eos_disk.specs.declared.fault.DiskFault.TheVariants.{NotThere};

    /// An open file.
    type File: Read + Drop + Send;

    /// What stands at a path, as far as it is known.
    ghost holds: { Self → List ℕ → Entry };

    /// Opens the file of this path, before its first byte.
    fn open(&self, alloc: Global, path: &str) -> Result<Self::File, DiskFault>
        ensures ok { IfOk result (λ file. Leaves (holds self.now path.now) (Self.File.remaining file)) }
        ensures absent { result ≡ Err NotThere → MayLackFile (holds self.now path.now) };

    /// The names in the folder of this path, in any order. Those that aren't UTF-8 are left out.
    fn list(&self, alloc: Global, path: &str) -> Result<Vec<Bytes>, DiskFault>
        ensures ok { IfOk result (λ names. HasNames (holds self.now path.now) names.items) }
        ensures absent { result ≡ Err NotThere → MayBeAbsent (holds self.now path.now) };
}
