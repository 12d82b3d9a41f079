// The fields of a layout, as rows of numbers: where each stands in the text, what it is, the slot that it takes and
// where packing begins it. The definitions are in specs/Rows.antt; what is claimed of them is proved in the crate
// `describe_claims`.
ghost use Rattle.std.specs.Prelude.{◌≡◌, ◌+◌, ◌*◌, ◌≤◌, ◌<◌, length};
ghost use Rattle.layout.specs.declared.Role.TheVariants.{Data};
ghost use Rattle.layout.specs.Layout.{max_layout};
ghost use Rattle.layout.specs.inside.Parsing.{FitRole, FitCount};
ghost use Rattle.record.specs.Bytes.{store_at, big_endian};
ghost use Rattle.describe.specs.inside.Texts.{placed_at};
ghost use Rattle.describe.specs.Rows.{plus, highest, less, asked, extent_of, filling, back, position_after, onward, count_shown, slot_shown, number_shown, row_of, number_size, row_size, row_numbers, listed};
ghost use Rattle.describe.specs.inside.Walk.{AtMost, layout_reach, Safe, Holds, Written};

use byte_runs::big_endian;
use layout::{Count, Field, Motion, Refusal, Role, Shape, parser, scanner};
use record::Answer;
use slot_table::sizes;

// How far packing has come: the cursor's position and the highest one so far. A number of bytes that a starred value
// decides, so that the layout alone does not fix it, is None.
#[derive(Clone, Copy)]
pub struct Track {
    pub at: Option<usize>,
    pub highest: Option<usize>,
}

// The eight numbers of a field.
#[derive(Clone, Copy)]
pub struct Row {
    pub place: u32,
    pub size: u32,
    pub letter: u32,
    pub flag: u32,
    pub count: u32,
    pub slot: u32,
    pub position: u32,
    pub bytes: u32,
}

// What stands in a row, for its host, where there is no count, no slot or an open number; and for a star.
const NONE: u32 = u32::MAX;

const STAR: u32 = NONE - 1;

// The bytes of a number, and of a row.
const NUMBER_SIZE: usize = 4;

const ROW_SIZE: usize = 8 * NUMBER_SIZE;

// ---- how packing moves over a field

fn plus(a: Option<usize>, b: Option<usize>) -> Option<usize>
    requires { AtMost layout_reach a × AtMost layout_reach b }
    ensures { result ≡ plus a b }
{
    Some(a? + b?)
}

fn highest(a: Option<usize>, b: Option<usize>) -> Option<usize>
    ensures { result ≡ highest a b }
{
    Some(a?.max(b?))
}

fn less(a: Option<usize>, n: usize) -> Option<usize>
    ensures { result ≡ less a n }
{
    Some(a?.saturating_sub(n))
}

// What a count asks for, where a star asks for all.
fn asked(n: Count, all: Option<usize>) -> Option<usize>
    ensures { result ≡ asked n all }
{
    match n {
        Count::Absent => Some(1),
        Count::Star => all,
        Count::Times(m) => Some(m),
    }
}

fn bytes_of(s: Shape, n: Option<usize>) -> Option<usize>
    requires { FitRole (Data s) × AtMost layout_reach n }
    ensures { result ≡ extent_of s n }
{
    Some(sizes::bytes_for(s, n?))
}

// The bytes that a field fills.
fn filling(k: Role, n: Count) -> Option<usize>
    requires { FitRole k × FitCount n }
    ensures { result ≡ filling k n }
{
    match k {
        Role::Data(s) => bytes_of(s, asked(n, None)),
        Role::Move(Motion::Skip) => asked(n, None),
        Role::Move(Motion::Back) => Some(0),
        Role::Move(Motion::Goto) => Some(0),
    }
}

fn back(at: Option<usize>, n: Count) -> Option<usize>
    ensures { result ≡ back at n }
{
    match n {
        Count::Absent => less(at, 1),
        Count::Star => Some(0),
        Count::Times(m) => less(at, m),
    }
}

impl Track {
    // The position after a field.
    fn position_after(self, k: Role, n: Count) -> Option<usize>
        requires { Safe k n self }
        ensures { result ≡ position_after self k n }
    {
        match k {
            Role::Data(_) => plus(self.at, filling(k, n)),
            Role::Move(Motion::Skip) => plus(self.at, filling(k, n)),
            Role::Move(Motion::Back) => back(self.at, n),
            Role::Move(Motion::Goto) => asked(n, self.highest),
        }
    }

    // The track after a field.
    fn onward(self, k: Role, n: Count) -> Track
        requires { Safe k n self }
        ensures { result ≡ onward self k n }
    {
        let at = self.position_after(k, n);
        Track {
            at,
            highest: highest(self.highest, at),
        }
    }
}

// ---- the row of a field

fn count_number(n: Count) -> u32
    requires { FitCount n }
    ensures { result ≡ count_shown n }
{
    match n {
        Count::Absent => NONE,
        Count::Star => STAR,
        Count::Times(m) => m as u32,
    }
}

// The number of the slot that a field takes, where `slot` slots are taken before it.
fn slot_number(k: Role, slot: usize) -> u32
    requires { slot ≤ max_layout }
    ensures { result ≡ slot_shown k slot }
{
    match k {
        Role::Data(_) => slot as u32,
        Role::Move(_) => NONE,
    }
}

fn number(n: Option<usize>) -> u32
    requires { AtMost layout_reach n }
    ensures { result ≡ number_shown n }
{
    match n {
        Some(n) => n as u32,
        None => NONE,
    }
}

// The row of the field f, whose type character stands at a place of the text.
fn row_at(text: &[u8], at: usize, f: Field, slot: usize, t: Track) -> Row
    requires { (at < length text.now) × (length text.now ≤ max_layout) × (slot ≤ max_layout)
        × Safe f.role f.count t }
    ensures { result ≡ row_of slot t (placed_at text.now at f) }
{
    let tail = scanner::tail_at(text, at + 1);
    Row {
        place: at as u32,
        size: (tail.next - at) as u32,
        letter: u32::from(text[at]),
        flag: u32::from(f.unsigned),
        count: count_number(f.count),
        slot: slot_number(f.role, slot),
        position: number(t.at),
        bytes: number(filling(f.role, f.count)),
    }
}

// ---- rows as bytes

fn put_numbers(out: &mut [u8], at: usize, numbers: &[u32])
    requires { at + length numbers.now * number_size ≤ length out.old }
    ensures { out.new ≡ store_at out.old at (big_endian number_size numbers.now) }
{
    for (j, x) in numbers.iter().enumerate() {
        big_endian::put_number(out, at + j * NUMBER_SIZE, NUMBER_SIZE, u64::from(*x));
    }
}

fn put_row(out: &mut [u8], at: usize, r: Row)
    requires { at + row_size ≤ length out.old }
    ensures { out.new ≡ store_at out.old at (big_endian number_size (row_numbers r)) }
{
    let eight: [u32; 8] = [
        r.place, r.size, r.letter, r.flag, r.count, r.slot, r.position, r.bytes,
    ];
    put_numbers(out, at, &eight);
}

// Writes the rows of a text's fields; the codes are the fields.
fn put_rows(text: &[u8], codes: &[u32], out: &mut [u8])
    requires { Holds text.now (length codes.now) codes.now × (length codes.now * row_size ≤ length out.old) }
    ensures { Written text.now out.old out.new }
{
    let mut t = Track {
        at: Some(0),
        highest: Some(0),
    };
    let mut slot: usize = 0;
    let mut i: usize = 0;
    let mut at: usize = 0;
    // By index: a field takes any number of bytes, and a space takes none of the codes.
    while at < text.len() {
        if text[at] == b' ' {
            at += 1;
        } else {
            let f = layout::field_of(codes[i]);
            let r = row_at(text, at, f, slot, t);
            put_row(out, i * ROW_SIZE, r);
            at += r.size as usize;
            slot += usize::from(matches!(f.role, Role::Data(_)));
            t = t.onward(f.role, f.count);
            i += 1;
        }
    }
}

// ---- the call

// Lists the fields of a layout: 0, the fields, 0, with a row of eight numbers for each at the front of the run, four
// bytes a number; or the refusal that reading by the layout would give to its text, 1 to 4, and its place; or 11 where
// the run has no room for the rows.
pub fn fields(layout: &[u8], out: &mut [u8]) -> Answer
    ensures { record { answer = result; output = out.new } ≡ listed layout.now out.old }
{
    if layout::MAX_LAYOUT < layout.len() {
        return Answer::refused(Refusal::BadSize, 0);
    }
    let mut codes: [u32; layout::MAX_LAYOUT] = [0; layout::MAX_LAYOUT];
    match parser::parse(layout, false, &mut codes) {
        Err(e) => Answer::refused(e.why, e.place as u32),
        Ok(f) => {
            if out.len() / ROW_SIZE < f.count {
                return Answer::refused(Refusal::NoRoom, 0);
            }
            put_rows(layout, &codes[..f.count], out);
            Answer::accepted(f.count as u32, 0)
        }
    }
}
