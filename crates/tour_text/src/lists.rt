// A list of examples is a text with one of them a line.
ghost use Rattle.std.specs.Prelude.{◌≡◌, ◌≢◌, ◌∷◌, ◌++◌, All, IfSome, MatchOption};

use super::print::Escaped;
use std::io;

// What stands before the first bar of a text, and what after it.
pub fn at_bar(text: &[u8]) -> Option<(&[u8], &[u8])>
    ensures parts { IfSome result (λ parts. text.now ≡ parts.0.now ++ 124 ∷ parts.1.now) }
    ensures first { MatchOption result (All (λ b. b ≢ 124) text.now) (λ parts. All (λ b. b ≢ 124) parts.0.now) }
{
    let bar = text.iter().position(|b| *b == b'|')?;
    Some((&text[..bar], &text[bar + 1..]))
}

// Shows each example of a list: a letter and another byte, a layout or template, a bar and what follows. Where the
// letter is `h`, what follows is a heading. A line with no bar is no example.
pub fn run<F: Fn(u8, &[u8], &[u8]) -> io::Result<()>>(
    rt: &impl Print,
    list: &[u8],
    show: F,
) -> io::Result<()>
    requires { F.IsAlwaysCallable show }
{
    for line in list.split(|b| *b == b'\n') {
        if let [letter, _, example @ ..] = line
            && let Some((layout, rest)) = at_bar(example)
        {
            match letter {
                b'h' => println!(rt; "{}", Escaped(rest))?,
                _ => show(*letter, layout, rest)?,
            }
        }
    }
    Ok(())
}
