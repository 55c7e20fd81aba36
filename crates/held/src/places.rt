// Where each number of a decoder stands among the 24.
pub const ROOM: usize = 0;

pub const SIZE: usize = 1;

pub const CLOSED: usize = 2;

pub const STAGE: usize = 3;

pub const GATHERED: usize = 4;

pub const LACKS: usize = 5;

pub const FORMAT: usize = 6;

pub const PLACE: usize = 7;

pub const LEFT: usize = 8;

pub const ID: usize = 9;

pub const GOT: usize = 10;

// Rows have six numbers each.
pub const BEFORE: usize = 11;

pub const HEADER: usize = 17;
