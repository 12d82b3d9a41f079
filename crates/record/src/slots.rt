// What a slot says of its value, and the position in the record at which its field began.
#[derive(Clone, Copy)]
pub struct Slot {
    pub kind: u32,
    pub start: u32,
    pub len: u32,
    pub position: u32,
}

// The position in a slot that no record was read into, a number as the host sees it.
pub const NO_POSITION: u32 = u32::MAX;

// The kinds by number, as slots are lent: a table may hold any number, and one above the highest is refused only where
// the slot is used. The kinds, and the highest: nothing is set, a string, signed integers, unsigned integers, reals.
pub const UNSET: u32 = 0;

pub const STRING: u32 = 1;

pub const SIGNED: u32 = 2;

pub const UNSIGNED: u32 = 3;

pub const REAL: u32 = 4;

pub const MAX_KIND: u32 = REAL;
