// Perl templates become layouts: a line for each call, with the template, what is lent, the
// answer's three numbers and the layout.
use layout::MAX_LAYOUT;
use record::Answer;
use std::io;
use tour_text::lists;
use tour_text::print::{Answered, Hex, Lent, Short};

// The line of a call; an accepted one has the layout, in quotes.
fn line(rt: &impl Print, template: &[u8], told: &[u8], a: Answer, layout: &[u8]) -> io::Result<()> {
    print!(rt; "perl '{}'{}{}", Short(template), Lent(told), Answered(a))?;
    match layout.get(..a.first as usize) {
        Some(text) if a.number == 0 => println!(rt; ": '{}'", Short(text)),
        _ => println!(rt; ""),
    }
}

// Turns a template into a layout, and prints the line; `told` names what is lent.
fn show(rt: &impl Print, template: &[u8], told: &[u8], layout: &mut [u8]) -> io::Result<()> {
    let a = perl::from_perl(template, layout);
    line(rt, template, told, a, layout)
}

// Turns a template into a layout, in a buffer of the longest layout. In a list it stands between `t` and a bar.
fn one(rt: &impl Print, template: &[u8]) -> io::Result<()> {
    show(rt, template, b"", &mut [0; MAX_LAYOUT])
}

fn run(rt: &impl Print, list: &[u8]) -> io::Result<()> {
    lists::run(rt, list, |_, template, _| one(rt, template))
}

// The request's own template; every letter, alone and with a count.
fn letters(rt: &impl Print) -> io::Result<()> {
    run(
        rt,
        b"
t (n2a3)2 C|
t a|
t b|
t B|
t h|
t H|
t x|
t C|
t n|
t N|
t v|
t V|
t abBhHxCnNvV|
t a1b2B3h4H5x6C7n8N9v10V11|
t a4096|
t V4096|
",
    )
}

// A group written once, many times, inside others, and eight deep; spaces around items.
fn groups(rt: &impl Print) -> io::Result<()> {
    run(
        rt,
        b"
t (a)|
t (a)1|
t (a3)2|
t (nv)3|
t ((a2)2b)3|
t (C(n(N)2)2)2x|
t ( a )2 b|
t (  ( a b ) C )2|
t     a   n2|
t ((((((((a))))))))|
t ((((((((a)2)2)2)2)2)2)2)1|
t (a)64|
t ((a)64)4|
t |
t   |
t  a |
",
    )
}

// Number 15 in a count or a repeat, or where none can stand.
fn bad_numbers(rt: &impl Print) -> io::Result<()> {
    run(
        rt,
        b"
t a4097|
t a5000|
t a40960|
t a0|
t a01|
t (a)65|
t (a)70|
t (a)640|
t (a)0|
t (a)01|
t a 2|
t (a) 2|
t 2a|
t (2)|
t a*|
t (a)*|
",
    )
}

// Number 15 at a letter or another byte.
fn bad_letters(rt: &impl Print) -> io::Result<()> {
    run(
        rt,
        b"
t A|
t a2A3|
t (aA)2|
t X|
t aX2|
t @4|
t c|
t s|
t S|
t w|
t q|
t n!|
t au|
t a,b|
t a\tb|
",
    )?;
    one(rt, b"a\nb")?;
    one(rt, b"a\x00")
}

// Number 15 at a parenthesis, or at the end of a template that stops too soon.
fn bad_groups(rt: &impl Print) -> io::Result<()> {
    run(
        rt,
        b"
t ()|
t a()|
t ((a)())|
t )|
t a)|
t (a))|
t (((((((((a)))))))))|
t a(((((((((|
t (|
t (a|
t ((a)2|
t (a)2(|
t ( )|
t (a |
",
    )
}

// Number 11, which comes after 15; lengths far above any number of 32 bits.
fn long_results(rt: &impl Print) -> io::Result<()> {
    run(
        rt,
        b"
t ((a)64)4b|
t ((a)64)5|
t ((a)64)5A|
t ((a)64)5(|
t ((((((((a)64)64)64)64)64)64)64)64|
t ((((((((a4096)64)64)64)64)64)64)64)64|
",
    )
}

// Number 1, which comes before 15.
fn long_templates(rt: &impl Print) -> io::Result<()> {
    show(rt, &[b'a'; 256], b"256 bytes", &mut [0; MAX_LAYOUT])?;
    show(rt, &[b'a'; 257], b"257 bytes", &mut [0; MAX_LAYOUT])?;
    show(rt, &[b' '; 256], b"256 bytes", &mut [0; MAX_LAYOUT])?;
    show(rt, &[b'A'; 257], b"257 bytes", &mut [0; MAX_LAYOUT])
}

// Buffers as long as the result, shorter, empty, and longer than any layout.
fn buffers(rt: &impl Print) -> io::Result<()> {
    show(rt, b"n2a3", b"buffer of 5 bytes", &mut [0; 5])?;
    show(rt, b"n2a3", b"buffer of 4 bytes", &mut [0; 4])?;
    show(rt, b"a", b"buffer of 0 bytes", &mut [0; 0])?;
    show(rt, b" ", b"buffer of 0 bytes", &mut [0; 0])?;
    show(rt, b"((a)64)4", b"buffer of 300 bytes", &mut [0; 300])?;
    show(rt, b"((a)64)4b", b"buffer of 300 bytes", &mut [0; 300])
}

// Turns a template into a layout in eight bytes aa, and prints all that they then hold.
fn whole(rt: &impl Print, template: &[u8]) -> io::Result<()> {
    let mut layout = [0xaa; 8];
    let a = perl::from_perl(template, &mut layout);
    println!(rt;
        "perl '{}' buffer of eight bytes aa{}; buffer{}",
        Short(template),
        Answered(a),
        Hex(&layout)
    )
}

// What a call does not touch: the buffer after the layout, and all of it after a refusal.
fn kept(rt: &impl Print) -> io::Result<()> {
    whole(rt, b"n2")?;
    whole(rt, b"")?;
    whole(rt, b"(a)8")?;
    whole(rt, b"(a)9")?;
    whole(rt, b"n2A")?;
    whole(rt, b"(n2")
}

fn refusals(rt: &impl Print) -> io::Result<()> {
    println!(rt; "\nRefused: 15 and its place")?;
    bad_numbers(rt)?;
    bad_letters(rt)?;
    bad_groups(rt)?;
    println!(rt; "\nRefused: 11, and 1")?;
    long_results(rt)?;
    long_templates(rt)
}

pub fn main(rt: &impl Print) -> io::Result<()> {
    println!(rt; "Perl templates: template -> number, first, second: layout")?;
    letters(rt)?;
    groups(rt)?;
    refusals(rt)?;
    println!(rt; "\nBuffers")?;
    buffers(rt)?;
    kept(rt)
}
