// What a layout promises, asked before it is used: whether it may grow at its end, whether reading by it loses nothing,
// whether it may be joined with others; and whether a layout is another one with fields added at its end. The
// definitions are in specs/Promises.antt; what they have to do with the three theorems is claimed and proved in the
// crate `promises_claims`.
#![tactic(auto)]

ghost use Rattle.std.specs.Prelude.{◌≡◌, ◌≤◌, ◌<◌, length};
ghost use Rattle.layout.specs.Layout.{max_layout, takes_slot, to_nat};
ghost use Rattle.layout.specs.Codes.{field_of};
ghost use Rattle.layout.specs.inside.Parsing.{FitRole, FitCount, decoded};
ghost use Rattle.runs.specs.Ends.{plain_role, plain_count, fills};
ghost use Rattle.lossless.specs.Claim.{shows_all, lossless_role};
ghost use Rattle.promises.specs.Promises.{Promise, reach_start, reach_with, plain_field, lossless_field, slots_in_table, end_in_record, in_limits, grows, keeps, joins, is_plain, in_table, in_record, same_field, told, refused_in, promised, extended_by, extended};
ghost use Rattle.promises.specs.inside.Walk.{Judges, kept_front, code_reach, codes_reach, same_front, type_in, PlaceOf, Holds, ReadAs, BreaksAt, place_number, Short, GrownAs};

use layout::{Count, Field, Fields, Motion, Refusal, Refused, Role, Shape, parser, scanner};
use record::Answer;
use slot_table::sizes;

// How far a layout has come: the slots that its fields take so far, and where the last of them ends.
#[derive(Clone, Copy)]
pub struct Reach {
    pub slots: usize,
    pub end: usize,
}

// What a call answers, as the definitions of the calls name it: the three numbers of an answer and a fourth.
#[derive(Clone, Copy)]
pub struct Told {
    pub answer: Answer,
    pub fourth: u32,
}

// What an answer holds, for its host, in place of a place where there is none.
const NOWHERE: u32 = u32::MAX;

// ---- how far a layout has come

// The bytes that a field fills in packing.
fn fills(k: Role, n: Count) -> usize
    requires { FitRole k × FitCount n }
    ensures { (result ≡ fills k n) × (result ≤ code_reach) }
{
    match k {
        Role::Data(s) => sizes::bytes_for(s, record::amount(n, 0)),
        Role::Move(Motion::Skip) => record::amount(n, 0),
        Role::Move(Motion::Back) => 0,
        Role::Move(Motion::Goto) => 0,
    }
}

impl Reach {
    // How far a layout has come in front of its first field.
    fn nothing() -> Reach
        ensures { result ≡ reach_start }
    {
        Reach { slots: 0, end: 0 }
    }

    // How far a layout has come with one field more.
    fn with(self, f: Field) -> Reach
        requires { FitRole f.role × FitCount f.count × (self.slots ≤ max_layout) × (self.end ≤ codes_reach) }
        ensures { result ≡ reach_with self f }
    {
        Reach {
            slots: self.slots + usize::from(matches!(f.role, Role::Data(_))),
            end: self.end + fills(f.role, f.count),
        }
    }

    // Whether the fields take no more slots than a table may have.
    fn slots_fit(self) -> bool
        ensures { result ≡ slots_in_table self }
    {
        self.slots <= record::MAX_SLOTS
    }

    // Whether the last field ends within the longest record.
    fn end_fits(self) -> bool
        ensures { result ≡ end_in_record self }
    {
        self.end <= record::MAX_RECORD
    }

    fn fits(self) -> bool
        ensures { result ≡ in_limits self }
    {
        self.slots_fit() && self.end_fits()
    }
}

// ---- the promises, field by field

fn plain_count(n: Count) -> bool
    ensures { result ≡ plain_count n }
{
    match n {
        Count::Absent => true,
        Count::Star => false,
        Count::Times(m) => 1 <= m,
    }
}

fn plain_role(k: Role) -> bool
    ensures { result ≡ plain_role k }
{
    matches!(k, Role::Data(_) | Role::Move(Motion::Skip))
}

// Whether n items of a shape show every bit of the bytes that they fill.
fn shows_all(s: Shape, n: usize) -> bool
    ensures { result ≡ shows_all s n }
{
    match s {
        Shape::Text(pad) => pad == 0,
        Shape::Digits(true, _) => n % 2 == 0,
        Shape::Digits(false, _) => n % 8 == 0,
        Shape::Integers(_, _) => true,
        Shape::Reals(single, _) => !single,
    }
}

fn lossless_role(k: Role, n: Count) -> bool
    ensures { result ≡ lossless_role k n }
{
    match k {
        Role::Data(s) => shows_all(s, record::amount(n, 0)),
        Role::Move(_) => false,
    }
}

fn plain_field(f: Field) -> bool
    ensures { result ≡ plain_field f }
{
    plain_role(f.role) && plain_count(f.count)
}

fn lossless_field(f: Field) -> bool
    ensures { result ≡ lossless_field f }
{
    lossless_role(f.role, f.count) && plain_count(f.count)
}

// What a layout may promise, each asked of a field, where the layout has come as far as r with it: to grow at its end,
// to keep everything that is read, to be joined. The first has three parts: the fields are plain, they take no more
// slots than a table may have, and they end within the longest record.
fn grows(r: Reach, f: Field) -> bool
    ensures { result ≡ grows r f }
{
    plain_field(f) && r.fits()
}

fn keeps(r: Reach, f: Field) -> bool
    ensures { result ≡ keeps r f }
{
    lossless_field(f) && r.fits()
}

fn joins(_r: Reach, f: Field) -> bool
    ensures { result ≡ joins _r f }
{
    plain_role(f.role)
}

fn is_plain(_r: Reach, f: Field) -> bool
    ensures { result ≡ is_plain _r f }
{
    plain_field(f)
}

fn in_table(r: Reach, _f: Field) -> bool
    ensures { result ≡ in_table r _f }
{
    r.slots_fit()
}

fn in_record(r: Reach, _f: Field) -> bool
    ensures { result ≡ in_record r _f }
{
    r.end_fits()
}

// How many fields at the front of the codes keep a promise.
fn kept_front<F: Fn(Reach, Field) -> bool>(codes: &[u32], kept: F) -> usize
    requires callable { F.IsAlwaysCallable kept }
    requires few { length codes.now ≤ max_layout }
    ensures { (q : Promise) → Judges (F.post kept) q
        → result ≡ kept_front q reach_start (decoded (length codes.now) codes.now) }
{
    let mut r = Reach::nothing();
    for (i, code) in codes.iter().enumerate() {
        let f = layout::field_of(*code);
        r = r.with(f);
        if !kept(r, f) {
            return i;
        }
    }
    codes.len()
}

// ---- fields that are the same

// The type in a code: its number, and one number for all codes whose type stands for `X`.
fn type_in(code: u32) -> u32
    ensures { result ≡ type_in (field_of code).role }
{
    let d = code % layout::FLAG_UNIT;
    match d {
        ..=layout::LAST_DATA => d,
        layout::SKIP => d,
        layout::GOTO => d,
        _ => layout::BACK,
    }
}

// Whether two codes stand for the same field.
fn same_field(v: u32, w: u32) -> bool
    ensures { result ≡ same_field (field_of v) (field_of w) }
{
    type_in(v) == type_in(w) && v / layout::FLAG_UNIT == w / layout::FLAG_UNIT
}

// How many fields at the front of the old and the new codes are the same.
fn same_front(old: &[u32], new: &[u32]) -> usize
    ensures { result ≡ same_front (decoded (length old.now) old.now) (decoded (length new.now) new.now) }
{
    let end = old.len().min(new.len());
    for i in 0..end {
        if !same_field(old[i], new[i]) {
            return i;
        }
    }
    end
}

// ---- places

// The place of field k of a text that is accepted; the text's length where it has no more fields.
fn place_of(text: &[u8], k: usize) -> usize
    ensures { PlaceOf text.now k result }
{
    let mut left = k;
    let mut at: usize = 0;
    // By index: a field takes any number of bytes.
    while at < text.len() {
        if text[at] == b' ' {
            at += 1;
        } else {
            if left == 0 {
                return at;
            }
            left -= 1;
            at = scanner::tail_at(text, at + 1).next;
        }
    }
    at
}

// The place of the first field of a text that breaks a promise; the codes are its fields.
fn first_break<F: Fn(Reach, Field) -> bool>(text: &[u8], codes: &[u32], kept: F) -> Option<usize>
    requires callable { F.IsAlwaysCallable kept }
    requires fields { Holds text.now codes.now }
    ensures { (q : Promise) → Judges (F.post kept) q → BreaksAt text.now q result }
{
    let k = kept_front(codes, kept);
    if codes.len() <= k {
        return None;
    }
    Some(place_of(text, k))
}

// ---- the calls

impl Told {
    fn accepted(first: u32, second: u32, third: u32) -> Told
        ensures { result ≡ told first second third }
    {
        Told {
            answer: Answer::accepted(first, second),
            fourth: third,
        }
    }

    // `which`, a word of the reply: 0 for a place in the old layout, 1 for one in the new.
    fn refused(e: Refused, which: u32) -> Told
        requires { e.place ≤ max_layout }
        ensures { result ≡ refused_in which e.why e.place }
    {
        Told {
            answer: Answer::refused(e.why, e.place as u32),
            fourth: which,
        }
    }
}

// The number that a place has in an answer.
fn place_number(place: Option<usize>) -> u32
    requires { Short place }
    ensures { result ≡ place_number place }
{
    match place {
        Some(p) => p as u32,
        None => NOWHERE,
    }
}

// Reads a layout into codes: its fields, or the refusal that packing by it would give.
fn read_layout(text: &[u8], codes: &mut [u32]) -> Result<Fields, Refused>
    requires { length codes.old ≡ max_layout }
    ensures { ReadAs text.now result codes.new }
{
    if layout::MAX_LAYOUT < text.len() {
        return Err(Refusal::BadSize.at(0));
    }
    parser::parse(text, true, codes)
}

// Says where a layout breaks each promise: 0 and three places, for growing at its end, for losing nothing when it is
// read, and for being joined; 4294967295 stands for no place. A field that takes a slot more than a table may have, or
// that ends past the longest record, breaks the first two. Or the refusal that packing by it would give, 1 to 4, and
// its place.
pub fn promises(layout: &[u8]) -> Told
    ensures { result ≡ promised layout.now }
{
    let mut codes: [u32; layout::MAX_LAYOUT] = [0; layout::MAX_LAYOUT];
    match read_layout(layout, &mut codes) {
        Err(e) => Told::refused(e, 0),
        Ok(f) => {
            let fields = &codes[..f.count];
            Told::accepted(
                place_number(first_break(layout, fields, grows)),
                place_number(first_break(layout, fields, keeps)),
                place_number(first_break(layout, fields, joins)),
            )
        }
    }
}

// What is answered of the old layout's fields and those of the new text.
fn grown(old: &[u32], text: &[u8], new: &[u32]) -> Told
    requires { (length old.now ≤ max_layout) × Holds text.now new.now }
    ensures { GrownAs text.now (decoded (length old.now) old.now) result }
{
    let k = same_front(old, new);
    if k < old.len() {
        return Told::refused(Refusal::OtherFields.at(place_of(text, k)), 1);
    }
    if let Some(place) = first_break(text, new, is_plain) {
        return Told::refused(Refusal::NotPlain.at(place), 1);
    }
    if let Some(place) = first_break(text, new, in_table) {
        return Told::refused(Refusal::BadSlots.at(place), 1);
    }
    if let Some(place) = first_break(text, new, in_record) {
        return Told::refused(Refusal::NoRoom.at(place), 1);
    }
    Told::accepted(old.len() as u32, (new.len() - old.len()) as u32, 0)
}

// What is answered of the old layout's fields and of the new text, which is still to be read.
fn extends_codes(old: &[u32], new: &[u8]) -> Told
    requires { length old.now ≤ max_layout }
    ensures { result ≡ extended_by (decoded (length old.now) old.now) new.now }
{
    let mut codes: [u32; layout::MAX_LAYOUT] = [0; layout::MAX_LAYOUT];
    match read_layout(new, &mut codes) {
        Err(e) => Told::refused(e, 1),
        Ok(f) => grown(old, new, &codes[..f.count]),
    }
}

// Says whether the new layout is the old one with fields added at its end, so that records of the one can be read by
// the other: 0, the fields of the old layout, the fields added, 0. Or the refusal of a layout, 1 to 4, its place, 0,
// and 0 for the old layout or 1 for the new one; or 17 where the new fields do not begin with the old ones, 18 where a
// field of the new layout is not plain, 5 where one takes a slot more than a table may have, or 11 where one ends past
// the longest record, with its place in the new text, 0, and 1.
pub fn extends(old: &[u8], new: &[u8]) -> Told
    ensures { result ≡ extended old.now new.now }
{
    let mut codes: [u32; layout::MAX_LAYOUT] = [0; layout::MAX_LAYOUT];
    match read_layout(old, &mut codes) {
        Err(e) => Told::refused(e, 0),
        Ok(f) => extends_codes(&codes[..f.count], new),
    }
}
