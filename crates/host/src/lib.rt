// What the calls for a C host share: the sizes of the runs of bytes that are lent, and the replies. The numbers of a
// run are in `numbers`.
#![tactic(auto)]

ghost use Rattle.std.specs.Prelude.{◌≡◌, ◌*◌, eqb, leb, length};
ghost use Rattle.host.specs.Host.{reply_size, long_reply_size, reply_of, long_reply};
ghost use Rattle.host.specs.Numbers.{number_size};
ghost use Rattle.host.specs.inside.Small.{slot_bytes_fit, few_numbers};

use record::{Answer, MAX_NUMBERS};

// Numbers as bytes.
pub mod numbers;

// The bytes of a slot, and of a reply.
pub const SLOT_SIZE: usize = numbers::NUMBER_SIZE * record::SLOT_WIDTH;

const REPLY_SIZE: usize = 12;

// Whether a reply of `size` bytes is one of three numbers. (Each call tests its own reply and has its own array for the
// numbers of slots: its contract names its own effect, and an array is as large as the call needs.)
pub fn reply_fits(size: usize) -> bool
    ensures { result ≡ eqb size reply_size }
{
    size == REPLY_SIZE
}

// The bytes of a reply of four numbers, and whether a reply of `size` bytes is one.
const LONG_REPLY_SIZE: usize = 16;

pub fn long_reply_fits(size: usize) -> bool
    ensures { result ≡ eqb size long_reply_size }
{
    size == LONG_REPLY_SIZE
}

// Whether a run of `size` slot bytes is served: whole slots, and no more than a call may be lent.
pub fn slots_fit(size: usize) -> bool
    ensures { result ≡ slot_bytes_fit size }
{
    size <= MAX_NUMBERS * numbers::NUMBER_SIZE && size % SLOT_SIZE == 0
}

// Writes an answer into the reply, and hands back its number.
pub fn reply_with(reply: &mut [u8], a: Answer) -> u32
    requires { length reply.old ≡ reply_size }
    ensures { (result ≡ a.number) × (reply.new ≡ reply_of a) }
{
    let three: [u32; 3] = [a.number, a.first, a.second];
    numbers::encode_run(reply, &three);
    a.number
}

// Writes an answer and a fourth number into the reply, and hands back the answer's number.
pub fn reply_long(reply: &mut [u8], a: Answer, fourth: u32) -> u32
    requires { length reply.old ≡ long_reply_size }
    ensures { (result ≡ a.number) × (reply.new ≡ long_reply a fourth) }
{
    let number = a.number;
    let four: [u32; 4] = [number, a.first, a.second, fourth];
    numbers::encode_run(reply, &four);
    number
}

// The numbers of eight slots, which are few.
pub const FEW_NUMBERS: usize = 8 * record::SLOT_WIDTH;

// Whether the numbers in `size` slot bytes are few.
pub fn few(size: usize) -> bool
    ensures { result ≡ leb size (few_numbers * number_size) }
{
    size <= FEW_NUMBERS * numbers::NUMBER_SIZE
}
