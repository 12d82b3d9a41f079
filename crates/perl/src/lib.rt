// Perl pack templates become our layout text.
// The text is put into a block of its own by `readers`, so that nothing is written before all is decided.
#![tactic(auto)]

ghost use Rattle.std.specs.Prelude.{◌≡◌};
ghost use Rattle.perl.specs.Conversion.{from_perl};

use layout::{MAX_LAYOUT, Refusal};
use record::Answer;

// Letters, counts and repeats.
pub mod tokens;
// The layout text of one item.
pub mod items;
// Items and groups read.
pub mod readers;

// Writes the layout that a Perl template stands for. A refusal changes nothing.
pub fn from_perl(template: &[u8], layout: &mut [u8]) -> Answer
    ensures { record { answer = result; layout = layout.new } ≡ from_perl template.now layout.old }
{
    if MAX_LAYOUT < template.len() {
        return Answer::refused(Refusal::BadSize, 0);
    }
    let mut block: [u8; MAX_LAYOUT] = [0; MAX_LAYOUT];
    let span = match readers::sequence(template, 0, 0, &mut block, Some(0)) {
        Ok(span) => span,
        Err(p) => return Answer::refused(Refusal::BadTemplate, p as u32),
    };
    match span.end {
        Some(size) if size <= layout.len() => {
            layout[..size].copy_from_slice(&block[..size]);
            Answer::accepted(size as u32, 0)
        }
        _ => Answer::refused(Refusal::NoRoom, 0),
    }
}
