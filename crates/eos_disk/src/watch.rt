//! What is told of a folder while it is read.

/// Who is told how far the reading of a folder is. Both calls return.
pub trait Watch: Sync {
    /// So many segments are going to be read.
    fn found(&self, segments: u64);

    /// A segment of so many bytes was read. Any thread may say so.
    fn read(&self, bytes: u64);
}
