// The arguments of an example, from a text: strings in quotes, integers in braces, reals by the hex digits of their
// patterns in angle brackets, and `-` for a slot that is not set, as in `"abc" {3 -3 128} <3ff0000000000000> -`.
use record::slots::{REAL, SIGNED, STRING, UNSET};
use record::{INTEGER_SIZE, MAX_NUMBERS, SLOT_WIDTH};

// A table of slots over an area. What has no room is left out.
#[derive(Clone, Copy)]
pub struct Arguments {
    numbers: [u32; MAX_NUMBERS],
    count: usize,
    bytes: [u8; 256],
    end: usize,
}

// Puts items at a place of the room, if they fit, and tells the place after them.
fn append<T: Copy>(room: &mut [T], at: usize, items: &[T]) -> usize {
    match at.checked_add(items.len()) {
        Some(end) if end <= room.len() => {
            room[at..end].copy_from_slice(items);
            end
        }
        _ => at,
    }
}

fn number(n: usize) -> u32 {
    u32::try_from(n).unwrap_or(u32::MAX)
}

fn integer(word: &str) -> Option<u64> {
    Some(word.parse::<i64>().ok()?.cast_unsigned())
}

fn pattern(word: &str) -> Option<u64> {
    u64::from_str_radix(word, 16).ok()
}

impl Arguments {
    // The slots in use.
    pub fn slots(&self) -> &[u32] {
        self.numbers.get(..self.count).unwrap_or(&self.numbers)
    }

    // The area in use.
    pub fn area(&self) -> &[u8] {
        self.bytes.get(..self.end).unwrap_or(&self.bytes)
    }

    // A slot whose value starts at a place in the area.
    fn slot(&mut self, kind: u32, start: usize, length: usize) {
        let slot: [u32; SLOT_WIDTH] = [kind, number(start), number(length), 0];
        self.count = append(&mut self.numbers, self.count, &slot);
    }

    fn string(&mut self, text: &[u8]) {
        let start = self.end;
        self.end = append(&mut self.bytes, start, text);
        self.slot(STRING, start, text.len());
    }

    // A list of items, each a word that `read` takes for a number.
    fn list<F: Fn(&str) -> Option<u64>>(&mut self, kind: u32, text: &[u8], read: F)
        requires { F.IsAlwaysCallable read }
    {
        let start = self.end;
        for word in text.split(|b| *b == b' ') {
            if let Ok(word) = str::from_utf8(word)
                && let Some(n) = read(word)
            {
                self.end = append(&mut self.bytes, self.end, &n.to_be_bytes());
            }
        }
        self.slot(kind, start, self.end.saturating_sub(start) / INTEGER_SIZE);
    }

    // Lists, and a `-` for each slot that is not set.
    fn unquoted(&mut self, text: &[u8]) {
        for part in text.split(|b| matches!(b, b'}' | b'>')) {
            let bracket = part.iter().position(|b| matches!(b, b'{' | b'<'));
            let (between, list) = part.split_at(bracket.unwrap_or(part.len()));
            for _ in 0..between.iter().filter(|b| **b == b'-').count() {
                self.slot(UNSET, self.end, 0);
            }
            match list {
                [b'{', items @ ..] => self.list(SIGNED, items, integer),
                [b'<', items @ ..] => self.list(REAL, items, pattern),
                _ => {}
            }
        }
    }

    // The arguments that a text names.
    pub fn parse(text: &[u8]) -> Arguments {
        let mut all = Arguments {
            numbers: [0; MAX_NUMBERS],
            count: 0,
            bytes: [0; 256],
            end: 0,
        };
        for (i, part) in text.split(|b| *b == b'"').enumerate() {
            match i % 2 {
                0 => all.unquoted(part),
                _ => all.string(part),
            }
        }
        all
    }
}
