// The answer of a call, and the cursor of a run over a record.
#![tactic(auto)]

ghost use Rattle.std.specs.Prelude.{◌≡◌, ◌+◌, ◌≤◌, ◌<◌, min, max};
ghost use Rattle.layout.specs.Refusals.{line_of, number_of};
ghost use Rattle.layout.specs.inside.Parsing.{FitCount};
ghost use Rattle.layout.specs.declared.Motion.TheVariants.{Skip, Back, Goto};
ghost use Rattle.record.specs.Geometry.{amount};
ghost use Rattle.record.specs.inside.Bounds.{u64_limit};
ghost use Rattle.record.specs.Table.{number_limit};
ghost use Rattle.record.specs.inside.Cursor.{past, moved, over, moved_inside};
ghost use Rattle.record.specs.Packing.{accepted, refusal};

use layout::{Count, Refusal};

pub mod slots;

// The limits, and how many numbers make a slot.
pub const MAX_SLOTS: usize = 64;

pub const MAX_RECORD: usize = 32768;

pub const MAX_AREA: usize = 524288;

pub const SLOT_WIDTH: usize = 4;

// The bytes of an integer or a double in the area.
pub const INTEGER_SIZE: usize = 8;

// The numbers of the slots that a call may be lent.
pub const MAX_NUMBERS: usize = SLOT_WIDTH * MAX_SLOTS;

// What a call answers: 0 and two more numbers, or the number of a refusal, its place, and 0. These are the words of a
// reply, and the definitions of all calls, with the theorems over them, speak of `number`.
#[derive(Clone, Copy)]
pub struct Answer {
    pub number: u32,
    pub first: u32,
    pub second: u32,
}

// What a reading answers: the three numbers, and its steps, the fields that it went through, up to one that had too few
// bytes and with it.
#[derive(Clone, Copy)]
pub struct ReadAnswer {
    pub answer: Answer,
    pub steps: u32,
}

impl Answer {
    pub fn accepted(first: u32, second: u32) -> Answer
        ensures { result ≡ accepted first second }
    {
        Answer {
            number: 0,
            first,
            second,
        }
    }

    pub fn refused(why: Refusal, place: u32) -> Answer
        ensures { result ≡ refusal why place }
    {
        Answer {
            number: why.number(),
            first: place,
            second: 0,
        }
    }
}

impl ReadAnswer {
    pub fn refused(why: Refusal, place: u32) -> ReadAnswer
        ensures { result ≡ record { answer = refusal why place; steps = 0 } }
    {
        ReadAnswer {
            answer: Answer::refused(why, place),
            steps: 0,
        }
    }
}

// A position in a record and an end. Every move hands back the next cursor.
#[derive(Clone, Copy)]
pub struct Cursor {
    // counted from the front of the record
    pub at: usize,
    // in packing the highest position reached, in reading the end of the record
    pub end: usize,
}

// How many a count asks for where there are `all` in all.
pub fn amount(n: Count, all: usize) -> usize
    ensures { result ≡ amount n all }
{
    match n {
        Count::Absent => 1,
        Count::Star => all,
        Count::Times(m) => m,
    }
}

impl Cursor {
    // At the start of a record of `size` bytes; for packing 0.
    pub fn new(size: usize) -> Cursor
        ensures { result ≡ record { at = 0; end = size } }
    {
        Cursor { at: 0, end: size }
    }

    // Past `bytes` bytes that are stored here.
    pub fn store(self, bytes: usize) -> Cursor
        requires { self.at + bytes < u64_limit }
        ensures { result ≡ past self bytes }
    {
        let at = self.at + bytes;
        Cursor {
            at,
            end: self.end.max(at),
        }
    }

    // Past `bytes` bytes that are read here.
    pub fn load(self, bytes: usize) -> Cursor
        requires { self.at + bytes < u64_limit }
        ensures { result ≡ over self bytes }
    {
        Cursor {
            at: self.at + bytes,
            end: self.end,
        }
    }

    // `X` in packing and in reading: back, and no further than to the start.
    pub fn back(self, n: Count) -> Cursor
        ensures { result ≡ moved self Back n }
    {
        Cursor {
            at: self.at.saturating_sub(amount(n, self.at)),
            end: self.end,
        }
    }

    // `x` in reading: forward, and not past the end.
    pub fn skip(self, n: Count) -> Cursor
        requires { (self.at ≤ self.end) × (self.end < number_limit) × FitCount n }
        ensures { result ≡ moved_inside self Skip n }
    {
        let end = self.end;
        Cursor {
            at: end.min(self.at + amount(n, end)),
            end,
        }
    }

    // `@` in reading: not past the end.
    pub fn seek(self, n: Count) -> Cursor
        ensures { result ≡ moved_inside self Goto n }
    {
        let end = self.end;
        Cursor {
            at: end.min(amount(n, end)),
            end,
        }
    }

    // `@` in packing: the position counts as reached.
    pub fn goto(self, n: Count) -> Cursor
        ensures { result ≡ moved self Goto n }
    {
        let at = amount(n, self.end);
        Cursor {
            at,
            end: self.end.max(at),
        }
    }
}
