//! Colours.

/// How far marking has come with a row.
#[derive(Clone, Copy, Debug, PartialEq, Eq)]
pub enum Colour {
    /// Not reached.
    White,
    /// Reached, and its block is not read.
    Grey,
    /// Reached, and taken to be read.
    Out,
    /// Reached and read.
    Black,
}
