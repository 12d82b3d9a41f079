// Numbers as bytes, the highest byte first, of any width.
ghost use Rattle.std.specs.Prelude.{◌≡◌, ◌+◌, ◌^◌, ◌≤◌, ◌<◌, length};
ghost use Rattle.record.specs.Bytes.{store_at, number_bytes, number_at};
ghost use Rattle.record.specs.Table.{integer_size};

// The number that the w bytes from a place on make.
pub fn number_at(bytes: &[u8], at: usize, w: usize) -> u64
    requires { (at + w ≤ length bytes.now) × (w ≤ integer_size) }
    ensures { (result ≡ number_at w bytes.now at) × (result < 256 ^ w) }
{
    let mut eight = [0; record::INTEGER_SIZE];
    eight[record::INTEGER_SIZE - w..].copy_from_slice(&bytes[at..at + w]);
    u64::from_be_bytes(eight)
}

// Puts the w lowest bytes of a number at a place: eight at once, else one by one, since w may be more than eight.
pub fn put_number(out: &mut [u8], at: usize, w: usize, x: u64)
    requires { at + w ≤ length out.old }
    ensures { out.new ≡ store_at out.old at (number_bytes w x) }
{
    if w == record::INTEGER_SIZE {
        return out[at..at + w].copy_from_slice(&x.to_be_bytes());
    }
    let mut rest = x;
    for j in (0..w).rev() {
        out[at + j] = (rest % 256) as u8;
        rest /= 256;
    }
}
