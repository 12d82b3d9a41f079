// Two values as bytes of their areas: whether they are the same, where they part, and how many of their bits differ.
ghost use Rattle.std.specs.Prelude.{◌≡◌, ◌*◌, ◌≤◌, true, length, take};
ghost use Rattle.record.specs.Bytes.{digits};
ghost use Rattle.record.specs.Table.{max_area};
ghost use Rattle.compare.specs.Difference.{same_bytes, first_difference, differing, differing_bits, both_finding};
ghost use Rattle.compare.specs.Difference.{finding_numbers};

use super::report::REPORT_WIDTH;

// The bytes that are looked at together.
const BLOCK: usize = 16;

// What is found of a value field: whether both copies show the same value, which of them shows one if not both do, or
// where the two values part and how many of their bits differ.
#[derive(Clone, Copy)]
pub enum Finding {
    Same,
    OnlyFirst,
    OnlySecond,
    Neither,
    Differ { place: u32, bits: u32 },
}

impl Finding {
    // Its numbers in the report: the verdict, and place and bits of values that differ.
    pub fn numbers(self) -> [u32; REPORT_WIDTH]
        ensures { result ≡ finding_numbers self }
    {
        match self {
            Finding::Same => [0, 0, 0],
            Finding::OnlyFirst => [1, 0, 0],
            Finding::OnlySecond => [2, 0, 0],
            Finding::Neither => [3, 0, 0],
            Finding::Differ { place, bits } => [4, place, bits],
        }
    }
}

// Whether both are the same. The loop looks at all bytes: without an exit it is done many bytes at a time.
// (By index, here and below: of a loop over both by `zip` no proof closed that its items are the bytes at one place.)
fn same_bytes(first: &[u8], second: &[u8]) -> bool
    requires { length first.now ≡ length second.now }
    ensures { result ≡ same_bytes first.now second.now }
{
    let mut good = true;
    for i in 0..first.len() {
        good &= first[i] == second[i];
    }
    good
}

fn same(first: &[u8], second: &[u8]) -> bool
    ensures { result ≡ same_bytes first.now second.now }
{
    first.len() == second.len() && same_bytes(first, second)
}

// The bytes at the front of both that are the same, in whole blocks.
fn equal_blocks(first: &[u8], second: &[u8]) -> usize
    requires { length first.now ≡ length second.now }
    ensures { (result ≤ length first.now) × (same_bytes (take result first.now) (take result second.now) ≡ true) }
{
    let blocks = first.len() / BLOCK;
    for k in 0..blocks {
        let at = BLOCK * k;
        if !same_bytes(&first[at..at + BLOCK], &second[at..at + BLOCK]) {
            return at;
        }
    }
    BLOCK * blocks
}

// The first byte at which the two part; their length where none does.
fn first_difference(first: &[u8], second: &[u8]) -> usize
    requires { length first.now ≡ length second.now }
    ensures { result ≡ first_difference first.now second.now }
{
    for i in equal_blocks(first, second)..first.len() {
        if first[i] != second[i] {
            return i;
        }
    }
    first.len()
}

// How many of the eight binary digits of two bytes differ.
fn byte_bits(a: u8, b: u8) -> u32
    ensures { result ≡ differing (digits 2 8 a) (digits 2 8 b) }
{
    (a ^ b).count_ones()
}

// The bits that differ over the bytes of a block at most: their sum has room in a byte, so that the bytes of a block
// are summed all at once.
fn block_bits(first: &[u8], second: &[u8]) -> u8
    requires { (length first.now ≡ length second.now) × (length first.now ≤ 16) }
    ensures value { result ≡ differing_bits first.now second.now }
    ensures few { result ≤ 8 * length first.now }
{
    let mut sum: u8 = 0;
    for i in 0..first.len() {
        sum += byte_bits(first[i], second[i]) as u8;
    }
    sum
}

// The bits that differ over all bytes.
fn differing_bits(first: &[u8], second: &[u8]) -> u32
    requires { (length first.now ≡ length second.now) × (length first.now ≤ max_area) }
    ensures { result ≡ differing_bits first.now second.now }
{
    let blocks = first.len() / BLOCK;
    let mut sum: u32 = 0;
    for k in 0..blocks {
        let at = BLOCK * k;
        sum += u32::from(block_bits(&first[at..at + BLOCK], &second[at..at + BLOCK]));
    }
    let rest = BLOCK * blocks;
    sum + u32::from(block_bits(&first[rest..], &second[rest..]))
}

// The finding of two values that are both set.
pub fn both_finding(first: &[u8], second: &[u8]) -> Finding
    requires { length first.now ≤ max_area }
    ensures { finding_numbers result ≡ both_finding first.now second.now }
{
    if same(first, second) {
        return Finding::Same;
    }
    let common = first.len().min(second.len());
    let place = first_difference(&first[..common], &second[..common]) as u32;
    let bits = differing_bits(&first[..common], &second[..common]);
    Finding::Differ { place, bits }
}
