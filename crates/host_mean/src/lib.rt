// The mean of the marked legs for a C host.
#![tactic(auto)]

ghost use Rattle.std.specs.Prelude.{◌≡◌, ◌*◌, ◌%◌, eqb, length};
ghost use Rattle.record.specs.Table.{slot_width};
ghost use Rattle.host.specs.Numbers.{number_size};
ghost use Rattle.mean.specs.Claims.{Numeric};
ghost use Rattle.host_mean.specs.Calls.{mean_reply_size, pattern, mean_reply, MeanServed, HostMeans};

use byte_runs::big_endian;
use layout::Refusal;
use mean::marks::Marks;
use record::Answer;

// Where the pattern stands in the reply, and the reply's bytes.
const PATTERN_AT: usize = host::numbers::NUMBER_SIZE * 4;

const MEAN_REPLY_SIZE: usize = PATTERN_AT + record::INTEGER_SIZE;

// Whether a reply of `size` bytes is one of the mean.
fn reply_fits(size: usize) -> bool
    ensures { result ≡ eqb size mean_reply_size }
{
    size == MEAN_REPLY_SIZE
}

// The bit pattern of a mean; 0 where there is none.
fn pattern(m: Option<f64>) -> u64
    requires { Numeric m }
    ensures { result ≡ pattern m }
{
    m.map_or(0, |x| f64::to_bits(x))
}

// Writes an answer and its mean into the reply, and hands back the answer's number.
fn reply_with(reply: &mut [u8], r: Marks) -> u32
    requires { (length reply.old ≡ mean_reply_size) × Numeric r.mean }
    ensures { (result ≡ r.answer.number) × (reply.new ≡ mean_reply r) }
{
    let Marks { answer, mean } = r;
    let four = [
        answer.number,
        answer.first,
        answer.second,
        u32::from(mean.is_some()),
    ];
    host::numbers::encode_run(reply, &four);
    big_endian::put_number(reply, PATTERN_AT, record::INTEGER_SIZE, pattern(mean));
    answer.number
}

// The mean, with room lent for the slots' numbers.
fn mean_by(slots: &[u8], area: &[u8], reply: &mut [u8], room: &mut [u32]) -> u32
    requires { (length reply.old ≡ mean_reply_size) × (length slots.now ≡ length room.old * number_size)
        × (length room.old % slot_width ≡ 0) }
    ensures { MeanServed slots.now area.now reply.old reply.new result }
{
    host::numbers::decode(slots, room);
    reply_with(reply, mean::mean(room, area))
}

// The mean of the marks in a table, and how many of its slots are not set.
pub fn mean(slots: &[u8], area: &[u8], reply: &mut [u8]) -> u32
    ensures { HostMeans slots.now area.now reply.old reply.new result }
{
    if !reply_fits(reply.len()) {
        return Refusal::BadSize.number();
    }
    if !host::slots_fit(slots.len()) {
        return reply_with(
            reply,
            Marks {
                answer: Answer::refused(Refusal::BadSize, 0),
                mean: None,
            },
        );
    }
    let n = slots.len() / host::numbers::NUMBER_SIZE;
    let mut room = [0; record::MAX_NUMBERS];
    mean_by(slots, area, reply, &mut room[..n])
}
