//! What reopening finds of each container.
use disk_index::DiskPart;

/// What the files of a store have of a container.
#[derive(Debug, Drop)]
pub enum Found {
    /// The index that was saved last.
    Saved { generation: u64, part: DiskPart },
    /// The container is to be indexed anew.
    Marked { generation: u64 },
    /// The image is no index file: it is too short or has its first faulty field here, in bytes.
    Damaged { generation: u64, at: u64 },
    /// The image is an index file of the older format.
    Old { generation: u64 },
}
