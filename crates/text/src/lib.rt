// `a` and `A`: strings, cut or padded when stored, and how long one is without its trailing blanks.
#![tactic(auto)]

ghost use Rattle.std.specs.Prelude.{◌≡◌, ◌+◌, ◌≤◌, length};
ghost use Rattle.layout.specs.declared.Shape.TheVariants.{Text};
ghost use Rattle.record.specs.Bytes.{part, store_at};
ghost use Rattle.record.specs.Table.{max_record};
ghost use Rattle.record.specs.Packing.{stored};
ghost use Rattle.record.specs.Reading.{is_blank, trimmed};

// Stores n bytes of a string of `len` bytes that stands in the area, cut or padded: where it stands is said as its slot
// has it.
pub fn store(out: &mut [u8], at: usize, area: &[u8], start: usize, len: usize, n: usize, pad: u8)
    requires { (n ≤ max_record) × (at + n ≤ length out.old) × (start + len ≤ length area.now) }
    ensures { out.new ≡ store_at out.old at (stored (Text pad) n (part area.now start len)) }
{
    let kept = len.min(n);
    byte_runs::copy(out, at, area, start, kept);
    byte_runs::fill(out, at + kept, n - kept, pad);
}

fn is_blank(c: u8) -> bool
    ensures { result ≡ is_blank c }
{
    c == 0 || c == b' '
}

// How long n bytes of a record are without the spaces at their end that stand there in fours. What is left trims to the
// same.
// (A `while`: how far k falls depends on the bytes, and each turn takes off four.)
fn without_fours(input: &[u8], at: usize, n: usize) -> usize
    requires { at + n ≤ length input.now }
    ensures { (result ≤ n) × (trimmed (part input.now at result) ≡ trimmed (part input.now at n)) }
{
    let mut k = n;
    // Four at a time, as long as they are spaces: the data ends it.
    while 4 <= k && byte_runs::four_at(input, at + (k - 4), false) == 0x20202020 {
        k -= 4;
    }
    k
}

// How long n bytes of a record are without the spaces and zero bytes at their end.
pub fn trimmed_len(input: &[u8], at: usize, n: usize) -> usize
    requires { at + n ≤ length input.now }
    ensures { (result ≤ n) × (part input.now at result ≡ trimmed (part input.now at n)) }
{
    for i in (0..without_fours(input, at, n)).rev() {
        if !is_blank(input[at + i]) {
            return i + 1;
        }
    }
    0
}
