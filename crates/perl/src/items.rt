// A template's items put into a block as layout text: a letter with its count, and what is there already, again and
// again. The text ends at a place in the block, or at none once it has run over; then nothing more is put.
ghost use Rattle.std.specs.Prelude.{◌≡◌, ◌∷◌, ◌++◌, suc, ◌≤◌, ◌<◌, length, drop, get_or};
ghost use Rattle.layout.specs.Layout.{max_layout};
ghost use Rattle.perl.specs.Tokens.{max_repeat, letter_of};
ghost use Rattle.perl.specs.Template.{letter_at};
ghost use Rattle.perl.specs.Writing.{flag_text};
ghost use Rattle.perl.specs.inside.Readers.{held, Inside, item_text, Stored, Again, Written};

use super::tokens::{self, Letter};
use layout::MAX_LAYOUT;

// What a reader of a template has read up to the place `next`, and the end of the layout text in the block.
#[derive(Clone, Copy)]
pub struct Span {
    pub next: usize,
    pub end: Option<usize>,
}

// Puts a letter, the flag after it, and the digits of its count.
fn put(out: &mut [u8], to: Option<usize>, letter: Letter, digits: &[u8]) -> Option<usize>
    requires { (length digits.now ≤ max_layout) × (length out.old ≡ max_layout) × Inside to }
    ensures { Stored ((letter.byte ∷ flag_text letter.unsigned) ++ digits.now) to out.old result out.new }
{
    let to = to?;
    let count = to + 1 + usize::from(letter.unsigned);
    let end = count + digits.len();
    if MAX_LAYOUT < end {
        return None;
    }
    out[to] = letter.byte;
    if letter.unsigned {
        out[to + 1] = b'u';
    }
    for (i, &digit) in digits.iter().enumerate() {
        out[count + i] = digit;
    }
    Some(end)
}

// Has what stands from `to` to `end` stand there `times` times.
pub fn again(out: &mut [u8], to: Option<usize>, end: Option<usize>, times: usize) -> Option<usize>
    requires { (held to ≤ held end) × Inside end × (0 < times) × (times ≤ max_repeat)
        × (length out.old ≡ max_layout) }
    ensures { Again to end out.old times result out.new }
{
    let to = to?;
    let end = end?;
    let size = end - to;
    let all = to + times * size;
    if MAX_LAYOUT < all {
        return None;
    }
    // By index: each byte is the one a text before it, which an earlier turn may have put.
    for j in end..all {
        out[j] = out[j - size];
    }
    Some(all)
}

// Reads the letter at p with its count, and puts its layout text.
pub fn single(text: &[u8], p: usize, out: &mut [u8], to: Option<usize>) -> Result<Span, usize>
    requires { (p < length text.now) × (length text.now ≤ max_layout) × (length out.old ≡ max_layout) × Inside to }
    ensures { Written item_text (letter_at p (letter_of (get_or text.now p 0)) (drop (suc p) text.now)) to
        out.old result out.new }
{
    let Some(letter) = tokens::letter_of(text[p]) else {
        return Err(p);
    };
    let rest = &text[p + 1..];
    let n = tokens::number(rest, tokens::MAX_TEMPLATE_COUNT);
    let end = put(out, to, letter, &rest[..n.digits]);
    Ok(Span {
        next: p + 1 + n.digits,
        end,
    })
}
