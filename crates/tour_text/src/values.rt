// The values that slots show: strings in quotes, integers in braces, reals by their patterns in angle brackets, `not
// set` for a slot that is not set.
use super::print::{Hex, Numbers, Short, ends};
use record::slots::{REAL, SIGNED, STRING, UNSET};
use record::{INTEGER_SIZE, SLOT_WIDTH};
use std::fmt;
use std::fmt::Formatter;

// Integers or reals, by the kind of their slot, with a space between two.
#[derive(Clone, Copy)]
struct Items<'a> {
    kind: u32,
    items: &'a [[u8; INTEGER_SIZE]],
}

impl fmt::Display for Items<'_> {
    fn fmt<W: fmt::Write>(&self, f: &mut Formatter<W>) -> fmt::Result {
        for (i, item) in self.items.iter().enumerate() {
            if i > 0 {
                f.write_str(" ")?;
            }
            match self.kind {
                REAL => write!(f, "{:016x}", u64::from_be_bytes(*item))?,
                SIGNED => write!(f, "{}", i64::from_be_bytes(*item))?,
                _ => write!(f, "{}", u64::from_be_bytes(*item))?,
            }
        }
        Ok(())
    }
}

// The same; of many the first two and the last two.
#[derive(Clone, Copy)]
struct Few<'a>(Items<'a>);

impl fmt::Display for Few<'_> {
    fn fmt<W: fmt::Write>(&self, f: &mut Formatter<W>) -> fmt::Result {
        let Items { kind, items } = self.0;
        match ends(items, 16, 2) {
            Some((first, last)) => {
                write!(
                    f,
                    "{} .. {}",
                    Items { kind, items: first },
                    Items { kind, items: last }
                )
            }
            None => write!(f, "{}", self.0),
        }
    }
}

// What a slot shows in an area.
#[derive(Clone, Copy)]
struct Value<'a> {
    slot: [u32; SLOT_WIDTH],
    area: &'a [u8],
}

impl fmt::Display for Value<'_> {
    fn fmt<W: fmt::Write>(&self, f: &mut Formatter<W>) -> fmt::Result {
        let [kind, start, length, _] = self.slot;
        let rest = self.area.get(start as usize..).unwrap_or(self.area);
        let bytes = rest.get(..length as usize).unwrap_or(rest);
        let (items, _) = rest.as_chunks::<INTEGER_SIZE>();
        let items = items.get(..length as usize).unwrap_or(items);
        let few = Few(Items { kind, items });
        match kind {
            UNSET => f.write_str("not set"),
            STRING => write!(f, "\"{}\"", Short(bytes)),
            REAL => write!(f, "<{few}>"),
            _ => write!(f, "{{{few}}}"),
        }
    }
}

// The values of slots over an area, with a comma between two.
#[derive(Clone, Copy)]
struct Values<'a> {
    slots: &'a [[u32; SLOT_WIDTH]],
    area: &'a [u8],
}

impl fmt::Display for Values<'_> {
    fn fmt<W: fmt::Write>(&self, f: &mut Formatter<W>) -> fmt::Result {
        for (i, slot) in self.slots.iter().enumerate() {
            if i > 0 {
                f.write_str(", ")?;
            }
            write!(
                f,
                "{}",
                Value {
                    slot: *slot,
                    area: self.area
                }
            )?;
        }
        Ok(())
    }
}

// The values of a table; of a long one the first two and the last two.
#[derive(Clone, Copy)]
pub struct Table<'a> {
    pub slots: &'a [u32],
    pub area: &'a [u8],
}

impl fmt::Display for Table<'_> {
    fn fmt<W: fmt::Write>(&self, f: &mut Formatter<W>) -> fmt::Result {
        let area = self.area;
        let (slots, _) = self.slots.as_chunks::<SLOT_WIDTH>();
        match ends(slots, 8, 2) {
            Some((first, last)) => {
                write!(
                    f,
                    "{}, .. {}",
                    Values { slots: first, area },
                    Values { slots: last, area }
                )
            }
            None => write!(f, "{}", Values { slots, area }),
        }
    }
}

// The values that a call left whose answer begins with a number: an accepted one, with 0, left some.
#[derive(Clone, Copy)]
pub struct Left<'a>(pub u32, pub Table<'a>);

impl fmt::Display for Left<'_> {
    fn fmt<W: fmt::Write>(&self, f: &mut Formatter<W>) -> fmt::Result {
        match self.0 {
            0 => write!(f, ": {}", self.1),
            _ => Ok(()),
        }
    }
}

// Every number and every byte of a table.
#[derive(Clone, Copy)]
pub struct Whole<'a>(pub Table<'a>);

impl fmt::Display for Whole<'_> {
    fn fmt<W: fmt::Write>(&self, f: &mut Formatter<W>) -> fmt::Result {
        write!(
            f,
            "; slots{}; area{}",
            Numbers(self.0.slots),
            Hex(self.0.area)
        )
    }
}
