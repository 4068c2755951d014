//! The layout of the ready file, of the state file, and of a cell in it.

/// The number of the ready file.
pub(crate) const READY_FILE: u32 = 0;

/// The number of the state file.
pub(crate) const STATE_FILE: u32 = 1;

/// The first byte of a ready file.
pub(crate) const READY: u8 = 1;

/// The first byte of a ready file of a store that isn't ready.
pub(crate) const UNREADY: u8 = 0;

/// How many pairs of cells there are.
pub const PAIRS: usize = 256;

/// How many bytes a cell has.
pub(crate) const CELL: usize = 256;

/// How many bytes of a cell stand after its gate.
pub const CELL_BYTES: usize = 255;

/// How many bytes the state file has.
pub(crate) const STATE_LENGTH: usize = 131_072;

/// The gate of a cell that counts.
pub(crate) const OPEN: u8 = 1;

/// The gate of a cell that doesn't count.
pub(crate) const CLOSED: u8 = 0;

/// The kind of a cell that has an image.
pub(crate) const IMAGE: u8 = 1;

/// The kind of a cell whose container is to be indexed anew.
pub(crate) const REBUILD: u8 = 2;

/// Where the generation stands in a cell.
pub(crate) const GENERATION: usize = 2;

/// Where the image's length stands in a cell.
pub(crate) const LENGTH: usize = 10;

/// Where the length of the container's name stands in a cell.
pub(crate) const NAME_LENGTH: usize = 18;

/// Where the container's name stands in a cell.
pub(crate) const NAME: usize = 19;

/// The last generation of a container.
pub const LAST_GENERATION: u64 = 4_611_686_018_427_387_904;

/// The most bytes of an image.
pub const LONGEST_IMAGE: u64 = 67_108_864;
