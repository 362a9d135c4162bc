/// Where the bytes of a block lie.
#[derive(Clone, Copy, Debug, PartialEq, Eq)]
pub struct Place {
    /// The file of the disk.
    pub file: u8,
    /// The offset in the file of the first byte.
    pub at: u64,
    /// How many bytes there are.
    pub len: u32,
}
