// The readers of a template, which put the layout text of what they read into a block, or give the place of the first
// stray byte.
ghost use Rattle.std.specs.Prelude.{◌≡◌, false, ◌≤◌, ◌<◌, length};
ghost use Rattle.layout.specs.Layout.{max_layout};
ghost use Rattle.perl.specs.inside.Readers.{items_from, item_from, template_text, item_text, Inside, Written};

use super::{items, tokens};
use items::Span;

// Reads the item at p, inside `depth` groups, and puts its layout text.
#[cycle(item_sequence)]
fn item(
    text: &[u8],
    p: usize,
    depth: usize,
    out: &mut [u8],
    to: Option<usize>,
) -> Result<Span, usize>
    requires { (p < length text.now) × (length text.now ≤ max_layout) × (length out.old ≡ max_layout) × Inside to }
    ensures { Written item_text (item_from depth text.now p) to out.old result out.new }
{
    if text[p] != b'(' {
        return items::single(text, p, out, to);
    }
    if tokens::MAX_DEPTH <= depth {
        return Err(p);
    }
    let inside = sequence(text, p + 1, depth + 1, out, to)?;
    let after = inside.next + 1;
    let n = tokens::number(&text[after..], tokens::MAX_REPEAT);
    let times = tokens::repeat_of(n.value);
    let end = items::again(out, to, inside.end, times);
    Ok(Span {
        next: after + n.digits,
        end,
    })
}

// Reads the items from `at` on, inside `depth` groups, up to the `)` of the present group or the end of the template,
// and puts their layout text.
#[cycle(item_sequence)]
pub fn sequence(
    text: &[u8],
    at: usize,
    depth: usize,
    out: &mut [u8],
    to: Option<usize>,
) -> Result<Span, usize>
    requires { (at ≤ length text.now) × (length text.now ≤ max_layout) × (length out.old ≡ max_layout) × Inside to }
    ensures { Written template_text (items_from depth false text.now at) to out.old result out.new }
{
    let mut span = Span { next: at, end: to };
    let mut filled = false;
    // By index: an item takes any number of bytes.
    while span.next < text.len() {
        match text[span.next] {
            b' ' => span.next += 1,
            b')' if 0 < depth && filled => return Ok(span),
            b')' => return Err(span.next),
            _ => {
                span = item(text, span.next, depth, out, span.end)?;
                filled = true;
            }
        }
    }
    if depth == 0 { Ok(span) } else { Err(span.next) }
}
