// Numbers of 32 bits as a C host lends them: four bytes each, the highest first. By index: numbers and bytes go at two
// paces.
ghost use Rattle.std.specs.Prelude.{◌≡◌, ◌+◌, ◌*◌, ◌≤◌, length, take};
ghost use Rattle.record.specs.Bytes.{store_at, number_bytes, number_at};
ghost use Rattle.record.specs.Table.{slot_width};
ghost use Rattle.host.specs.Numbers.{number_size, numbers_in, numbers_bytes};

use byte_runs::big_endian;

// The bytes of a number.
pub const NUMBER_SIZE: usize = 4;

fn number_at(bytes: &[u8], at: usize) -> u32
    requires { at + number_size ≤ length bytes.now }
    ensures { result ≡ number_at number_size bytes.now at }
{
    big_endian::number_at(bytes, at, NUMBER_SIZE) as u32
}

fn put_number(out: &mut [u8], at: usize, x: u32)
    requires { at + number_size ≤ length out.old }
    ensures { out.new ≡ store_at out.old at (number_bytes number_size x) }
{
    out[at..at + NUMBER_SIZE].copy_from_slice(&x.to_be_bytes());
}

// The numbers of a run of bytes.
pub fn decode(bytes: &[u8], numbers: &mut [u32])
    requires { length bytes.now ≡ length numbers.old * number_size }
    ensures { numbers.new ≡ numbers_in bytes.now }
{
    for i in 0..numbers.len() {
        numbers[i] = number_at(bytes, i * NUMBER_SIZE);
    }
}

// The bytes of a run of numbers, put at the front.
pub fn encode_run(out: &mut [u8], numbers: &[u32])
    requires { length numbers.now * number_size ≤ length out.old }
    ensures { out.new ≡ store_at out.old 0 (numbers_bytes numbers.now) }
{
    for i in 0..numbers.len() {
        put_number(out, i * NUMBER_SIZE, numbers[i]);
    }
}

// The bytes of the first n slots.
pub fn encode(out: &mut [u8], numbers: &[u32], n: usize)
    requires { (length numbers.now * number_size ≤ length out.old) × (n * slot_width ≤ length numbers.now) }
    ensures { out.new ≡ store_at out.old 0 (numbers_bytes (take (n * slot_width) numbers.now)) }
{
    encode_run(out, &numbers[..n * record::SLOT_WIDTH]);
}
