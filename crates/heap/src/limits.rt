// The limits of a heap, which are part of its law.
pub const MOST_CELLS: u16 = 65_535;

pub const MOST_SECTIONS: u16 = 64;

pub const MOST_OBJECTS: u16 = 65_535;

pub const MOST_REFERENCES: usize = 262_144;

pub const MOST_ROOTS: usize = 4_096;
