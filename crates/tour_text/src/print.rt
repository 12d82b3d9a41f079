// How runs of bytes, numbers and answers are shown.
use record::{Answer, ReadAnswer};
use std::fmt;
use std::fmt::Formatter;

// The first and the last `few` items of a run of more than `most`.
pub(crate) fn ends<T>(run: &[T], most: usize, few: usize) -> Option<(&[T], &[T])> {
    if run.len() <= most {
        return None;
    }
    Some((run.get(..few)?, run.get(run.len().saturating_sub(few)..)?))
}

// Bytes as text: characters, or `\x` and two digits.
#[derive(Clone, Copy)]
pub struct Escaped<'a>(pub &'a [u8]);

impl fmt::Display for Escaped<'_> {
    fn fmt<W: fmt::Write>(&self, f: &mut Formatter<W>) -> fmt::Result {
        for b in self.0 {
            match b {
                b' '..=b'~' => f.write_char(char::from(*b))?,
                _ => write!(f, "\\x{b:02x}")?,
            }
        }
        Ok(())
    }
}

// The same; of a long run the first and the last eight bytes.
#[derive(Clone, Copy)]
pub struct Short<'a>(pub &'a [u8]);

impl fmt::Display for Short<'_> {
    fn fmt<W: fmt::Write>(&self, f: &mut Formatter<W>) -> fmt::Result {
        match ends(self.0, 48, 8) {
            Some((first, last)) => write!(f, "{} .. {}", Escaped(first), Escaped(last)),
            None => write!(f, "{}", Escaped(self.0)),
        }
    }
}

// Bytes as two digits each, after a space.
#[derive(Clone, Copy)]
struct Digits<'a>(&'a [u8]);

impl fmt::Display for Digits<'_> {
    fn fmt<W: fmt::Write>(&self, f: &mut Formatter<W>) -> fmt::Result {
        for b in self.0 {
            write!(f, " {b:02x}")?;
        }
        Ok(())
    }
}

// The same; of a long run the first and the last eight bytes.
#[derive(Clone, Copy)]
pub struct Hex<'a>(pub &'a [u8]);

impl fmt::Display for Hex<'_> {
    fn fmt<W: fmt::Write>(&self, f: &mut Formatter<W>) -> fmt::Result {
        match ends(self.0, 48, 8) {
            Some((first, last)) => write!(f, "{} ..{}", Digits(first), Digits(last)),
            None => write!(f, "{}", Digits(self.0)),
        }
    }
}

// Numbers, a space before each.
#[derive(Clone, Copy)]
pub struct Numbers<'a>(pub &'a [u32]);

impl fmt::Display for Numbers<'_> {
    fn fmt<W: fmt::Write>(&self, f: &mut Formatter<W>) -> fmt::Result {
        for n in self.0 {
            write!(f, " {n}")?;
        }
        Ok(())
    }
}

// What is lent besides, after a space, if there is anything to say of it.
#[derive(Clone, Copy)]
pub struct Lent<'a>(pub &'a [u8]);

impl fmt::Display for Lent<'_> {
    fn fmt<W: fmt::Write>(&self, f: &mut Formatter<W>) -> fmt::Result {
        if self.0.is_empty() {
            return Ok(());
        }
        write!(f, " {}", Escaped(self.0))
    }
}

// The three numbers of an answer.
#[derive(Clone, Copy)]
pub struct Answered(pub Answer);

impl fmt::Display for Answered {
    fn fmt<W: fmt::Write>(&self, f: &mut Formatter<W>) -> fmt::Result {
        let a = self.0;
        write!(f, " -> {} {} {}", a.number, a.first, a.second)
    }
}

// The three numbers of a reading's answer, and its steps.
#[derive(Clone, Copy)]
pub struct AnsweredRead(pub ReadAnswer);

impl fmt::Display for AnsweredRead {
    fn fmt<W: fmt::Write>(&self, f: &mut Formatter<W>) -> fmt::Result {
        let r = self.0;
        write!(f, "{} {}", Answered(r.answer), r.steps)
    }
}

// The bytes that an accepted call wrote at the front of a run: as many as the first number of its answer says.
#[derive(Clone, Copy)]
pub struct Stored<'a>(pub Answer, pub &'a [u8]);

impl fmt::Display for Stored<'_> {
    fn fmt<W: fmt::Write>(&self, f: &mut Formatter<W>) -> fmt::Result {
        let Stored(answer, run) = *self;
        match run.get(..answer.first as usize) {
            Some(bytes) if answer.number == 0 => write!(f, ":{}", Hex(bytes)),
            _ => Ok(()),
        }
    }
}
