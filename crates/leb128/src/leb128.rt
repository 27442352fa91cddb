// Unsigned LEB128 numbers (src/storage/parse/leb128.rs), at 64 bits and as filter numbers.
ghost use Rattle.std.specs.Prelude.{◌≡◌, ◌+◌, ◌≤◌, min, length};
ghost use Rattle.rules.specs.Output.{Written, Output};
ghost use Rattle.leb128.specs.Number.{shortest, number_at, most64, most_filter, Put};

use rules::refusal::Refusal;

// The largest number of 64 bits.
const MOST_64: u64 = 18_446_744_073_709_551_615;
// The largest number in a filter.
pub const MOST_FILTER: u64 = 4_294_967_295;

// Where a part that goes up to `end` ends in fact.
pub fn within(bytes: &[u8], end: usize) -> usize
    ensures { result ≡ min end (length bytes.now) }
{
    if end < bytes.len() { end } else { bytes.len() }
}

// The number at a place and the place after it. One function for every width: `most` is the largest number that is good. A byte of 128 or more goes on, and what follows is at
// least 1, so the number is then at least value + b * scale: the test that a last byte wants serves it too.
fn read(bytes: &[u8], at: usize, end: usize, most: u64) -> Result<(u64, usize), Refusal>
    requires { end ≤ length bytes.now }
    ensures { result ≡ number_at most bytes.now at end }
{
    let mut least: u64 = 0;
    let mut value: u64 = 0;
    let mut scale: u64 = 1;
    let mut shift: u64 = 0;
    for i in at..end {
        let b = bytes[i] as u64;
        if b < least {
            return Err(Refusal::BadNumber(at));
        }
        if (most - value) >> shift < b {
            return Err(Refusal::BadNumber(at));
        }
        if b < 128 {
            return Ok((value + b * scale, i + 1));
        }
        value = value + (b - 128) * scale;
        scale = scale * 128;
        shift = shift + 7;
        least = 1;
    }
    Err(Refusal::Cut(at))
}

// The number at a place, read up to `end`, and the place after it.
pub fn leb128_u64(bytes: &[u8], at: usize, end: usize) -> Result<(u64, usize), Refusal>
    ensures { result ≡ number_at most64 bytes.now at end }
{
    read(bytes, at, within(bytes, end), MOST_64)
}

// The filter number at a place, read up to `end`, and the place after it.
pub fn leb128_u32(bytes: &[u8], at: usize, end: usize) -> Result<(u64, usize), Refusal>
    ensures { result ≡ number_at most_filter bytes.now at end }
{
    read(bytes, at, within(bytes, end), MOST_FILTER)
}

// How many bytes a number's shortest form has.
pub fn unsigned_size(n: u64) -> usize
    ensures { result ≡ length (shortest n) }
{
    let mut rest = n;
    let mut size: usize = 1;
    // The number itself tells when to stop: there is no range to go over.
    while 128 <= rest {
        rest = rest / 128;
        size += 1;
    }
    size
}

// Puts a number's shortest form at a place of the buffer, and returns the place after it.
pub fn put_unsigned(out: &mut [u8], at: usize, n: u64) -> usize
    requires { at + length (shortest n) ≤ length out.old }
    ensures { Put out.old out.new at (shortest n) result }
{
    let mut rest = n;
    let mut i = at;
    // The number itself tells when to stop, as above.
    while 128 <= rest {
        out[i] = (rest % 128 + 128) as u8;
        rest = rest / 128;
        i += 1;
    }
    out[i] = rest as u8;
    i + 1
}

// Writes a number in its shortest form.
pub fn write_unsigned(out: &mut [u8], n: u64) -> Result<usize, Refusal>
    ensures { Written (Output.bytes (shortest n)) out.old out.new result }
{
    let size = unsigned_size(n);
    if out.len() < size {
        return Err(Refusal::NoRoom(size));
    }
    put_unsigned(out, 0, n);
    Ok(size)
}
