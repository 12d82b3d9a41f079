// Binary and hex digits, `b B h H`, read. By index: of what is written through a zip of two runs, nothing is known
// after the loop.
ghost use Rattle.std.specs.Prelude.{◌≡◌, Bool, true, false, ◌+◌, ◌/◌, ◌≤◌, ◌<◌, length};
ghost use Rattle.layout.specs.declared.Shape.TheVariants.{Digits};
ghost use Rattle.record.specs.Bytes.{ceil_div};
ghost use Rattle.record.specs.Reading.{loaded};
ghost use Rattle.digits.specs.Steps.{showing, steps, Advanced, binary_steps, binary_budget};

use super::Numeral;

// THE STEP number k in reading binary digits out: the eight of a whole byte where eight remain, and else one. It looks
// at one byte of the record. `eight` says which it is: the callers know it, and so the compiler does.
fn show_step(shown: &mut [u8], bytes: &[u8], k: usize, eight: bool, high: bool)
    requires { (ceil_div (length shown.old) 8 ≤ length bytes.now) × (k < binary_steps (length shown.old))
        × (eight ≡ true → k < length shown.old / 8) × (eight ≡ false → length shown.old / 8 ≤ k) }
    ensures { Advanced (showing high bytes.now 0 0) (length shown.old) k (k + 1) shown.old shown.new }
{
    if eight {
        super::chars::write_eight(&mut shown[8 * k..8 * k + 8], bytes[k], high);
    } else {
        let binary = Numeral { hex: false, high };
        let whole = shown.len() / 8;
        let j = k - whole;
        shown[8 * whole + j] = binary.char_at(bytes[whole], j);
    }
}

// Does the steps from the number `from` on up to `until`, one in each turn.
fn show_run(shown: &mut [u8], bytes: &[u8], from: usize, until: usize, eight: bool, high: bool)
    requires { (ceil_div (length shown.old) 8 ≤ length bytes.now) × (from ≤ until)
        × (until ≤ binary_steps (length shown.old)) × (eight ≡ true → until ≤ length shown.old / 8)
        × (eight ≡ false → from < until → length shown.old / 8 ≤ from) }
    ensures { Advanced (showing high bytes.now 0 0) (length shown.old) from until shown.old shown.new }
{
    for k in from..until {
        show_step(shown, bytes, k, eight, high);
    }
}

// Reads binary digits as far as a budget of steps goes, whatever it is: the steps over whole bytes, and then those over
// the digits that are left.
pub fn load_steps(shown: &mut [u8], bytes: &[u8], high: bool, budget: usize)
    requires { ceil_div (length shown.old) 8 ≤ length bytes.now }
    ensures { shown.new ≡ (steps (showing high bytes.now 0 0) (length shown.old) shown.old budget).bytes }
{
    let whole = shown.len() / 8;
    let eights = whole.min(budget); // the steps to do over whole bytes
    let all = (whole + shown.len() % 8).min(budget); // all steps to do
    show_run(shown, bytes, 0, eights, true, high);
    show_run(shown, bytes, eights, all, false, high)
}

// Reads binary digits by a budget that is enough for all of them.
pub fn load_binary(shown: &mut [u8], bytes: &[u8], high: bool)
    requires { ceil_div (length shown.old) 8 ≤ length bytes.now }
    ensures within { shown.new
        ≡ (steps (showing high bytes.now 0 0) (length shown.old) shown.old (binary_budget (length shown.old))).bytes }
    ensures effect { (u : Bool) → shown.new ≡ (loaded (Digits false high) u (length shown.old) bytes.now).items }
{
    let budget = shown.len() / 8 + super::SPARE;
    load_steps(shown, bytes, high, budget)
}

// Reads hex digits, the two of a byte a turn, and then the one that is left, if any.
pub fn load_hex(shown: &mut [u8], bytes: &[u8], high: bool)
    requires { ceil_div (length shown.old) 2 ≤ length bytes.now }
    ensures { (u : Bool) → shown.new ≡ (loaded (Digits true high) u (length shown.old) bytes.now).items }
{
    let hex = Numeral { hex: true, high };
    let pairs = shown.len() / 2;
    for k in 0..pairs {
        shown[2 * k] = hex.char_at(bytes[k], 0);
        shown[2 * k + 1] = hex.char_at(bytes[k], 1);
    }
    if shown.len() % 2 == 1 {
        shown[2 * pairs] = hex.char_at(bytes[pairs], 0);
    }
}
