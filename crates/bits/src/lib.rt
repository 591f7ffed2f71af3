#![tactic(auto)]

ghost use Rattle.std.specs.Prelude.{◌≡◌, ◌+◌, ◌*◌, ◌%◌, ◌≤◌, ◌<◌, length, take, drop};
ghost use Rattle.model.specs.Bits.{bits_of, number, letter_width};
ghost use Rattle.model.specs.Images.{most_size};
ghost use Rattle.bits.specs.Fields.{Inside, Writable, RunOf, Written};

// The width of a letter's field (specification 5.2): eight, less the leading zeros of n - 1.
pub fn letter_width(n: u8) -> u8
    requires { (1 ≤ n) × (n ≤ most_size) }
    ensures { result ≡ letter_width n }
{
    (u8::BITS - (n - 1).leading_zeros()) as u8
}

// How many of the bits of a field stand in the byte of its first bit.
fn run_length(at: usize, width: usize) -> usize
    ensures { RunOf at width result }
{
    width.min(8 - at % 8)
}

// The number that a run of bits within one byte writes.
fn read_run(bytes: &[u8], at: usize, count: usize) -> u16
    requires { (at < 8 * length bytes.now) × (at % 8 + count ≤ 8) }
    ensures { result ≡ number 0 (take count (drop at (bits_of bytes.now))) }
{
    let after = 8 - at % 8 - count;
    let span: u16 = 1 << count;
    (bytes[at / 8] as u16 >> after) % span
}

// The number that the bits of a field write: a run in each byte that it reaches into.
pub fn read_field(bytes: &[u8], at: usize, width: usize) -> u16
    requires { Inside bytes.now at width }
    ensures { result ≡ number 0 (take width (drop at (bits_of bytes.now))) }
{
    let mut value: u16 = 0;
    let mut i: usize = 0;
    // Kept (3): (d) a turn takes a run of 1 to 8 bits, so no range counts the turns.
    while i < width {
        let count = run_length(at + i, width - i);
        let run = read_run(bytes, at + i, count);
        value = (value << count) + run;
        i += count;
    }
    value
}

// Writes the last `count` digits of a value into a run of bits within one byte, and changes no other bit: the byte is put together anew from
// the bits before the run, the run and the bits after it.
fn write_run(bytes: &mut [u8], at: usize, count: usize, value: u32)
    requires { (at < 8 * length bytes.old) × (at % 8 + count ≤ 8) }
    ensures { Written bytes.old at count value bytes.new }
{
    let place = at / 8;
    let after = 8 - at % 8;
    let span: u32 = 1 << count;
    let weight: u32 = 1 << (after - count);
    let old = bytes[place] as u32;
    let head = old >> after;
    bytes[place] = ((head * span + value % span) * weight + old % weight) as u8;
}

// Writes the last `width` digits of a value into a field, and changes no other bit: a run in each byte that it reaches into.
pub fn write_field(bytes: &mut [u8], at: usize, width: usize, value: u32)
    requires { Writable bytes.old at width }
    ensures { Written bytes.old at width value bytes.new }
{
    let mut left = width;
    // Kept (3): (d) a turn takes a run of 1 to 8 bits, so no range counts the turns.
    while left > 0 {
        let place = at + (width - left);
        let count = run_length(place, left);
        let rest = left - count;
        write_run(bytes, place, count, value >> rest);
        left = rest;
    }
}
