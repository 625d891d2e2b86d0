//! Images with their maps.

use outer_world::{List, Point};

/// Addresses that follow each other and have one control point.
#[derive(Clone, Copy, Debug, PartialEq, Eq)]
pub struct PointRange {
    /// The first address.
    pub from: u32,
    /// The address after the last.
    pub to: u32,
    pub point: Point,
}

/// A static word of a file, by its index there.
#[derive(Clone, Copy, Debug, PartialEq, Eq)]
pub struct StaticWord {
    /// The number of the file, from 0.
    pub file: usize,
    pub index: u32,
    pub address: u16,
}

/// What the addresses of an image, and those of its static words, mean in the program.
#[derive(Drop)]
pub struct ImageMap {
    /// The control points of the addresses before the routines that commands share, rising.
    pub points: List<PointRange>,
    /// The addresses of the instructions that end a step of the program's meaning, rising.
    pub commits: List<u16>,
    /// The addresses of routines that commands share, each from its first up to and without the address after its last,
    /// rising. They come after those that have control points, and have none.
    pub shared: List<(u32, u32)>,
    /// The addresses of the instructions by which each function is entered, each from the first up to and without the
    /// address after the last, rising.
    pub entries: List<(u32, u32)>,
    /// The static words of all files, rising.
    pub statics: List<StaticWord>,
}

/// The words of an image, from address 0 on, with its map.
#[derive(Drop)]
pub struct Image {
    pub words: List<u16>,
    pub map: ImageMap,
}
