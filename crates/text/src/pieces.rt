// Characters, numbers and words.
// Kept (5): (d) a struct of `out` and `at` is no plainer: `Put` would speak of two structs, and each of its 11 functions of the same reference besides.
ghost use Rattle.std.specs.Prelude.{[], ◌∷◌, ◌+◌, ◌*◌, ◌≤◌, ◌<◌, length};
ghost use Rattle.model.specs.Word.{letter};
ghost use Rattle.text.specs.Text.{digit, number, spaced_number, letter_text, numbers_text, bytes_text};
ghost use Rattle.text.specs.Put.{Put};

use areas::bytes::copy_bytes;

pub fn put_byte(out: &mut [u8], at: usize, byte: u8) -> usize
    requires { at < length out.old }
    ensures { Put 1 out.old at (byte ∷ []) out.new result }
{
    out[at] = byte;
    at + 1
}

pub fn put_label(out: &mut [u8], at: usize, label: &[u8]) -> usize
    requires { at + length label.now ≤ length out.old }
    ensures { Put (length label.now) out.old at label.now out.new result }
{
    copy_bytes(label, &mut out[at..]);
    at + label.len()
}

// The digit of a power of ten, or nothing where the number is below that power.
pub fn put_digit(out: &mut [u8], at: usize, x: u16, power: u16) -> usize
    requires { (at < length out.old) × (0 < power) }
    ensures { Put 1 out.old at (digit power x) out.new result }
{
    if x < power {
        return at;
    }
    put_byte(out, at, b'0' + (x / power % 10) as u8)
}

// In decimal, without leading zeros.
pub fn put_number(out: &mut [u8], at: usize, x: u16) -> usize
    requires { at + 5 ≤ length out.old }
    ensures { Put 5 out.old at (number x) out.new result }
{
    let mut next = at;
    for power in [10000, 1000, 100, 10] {
        next = put_digit(out, next, x, power);
    }
    put_byte(out, next, b'0' + (x % 10) as u8)
}

pub fn put_spaced(out: &mut [u8], at: usize, x: u16) -> usize
    requires { at + 6 ≤ length out.old }
    ensures { Put 6 out.old at (spaced_number x) out.new result }
{
    let digits = put_byte(out, at, b' ');
    put_number(out, digits, x)
}

// A letter by its byte, with a minus where it is a back letter.
pub fn put_letter(out: &mut [u8], at: usize, byte: u8) -> usize
    requires { at + 7 ≤ length out.old }
    ensures { Put 7 out.old at (letter_text (letter byte)) out.new result }
{
    if byte < 128 {
        return put_spaced(out, at, byte as u16);
    }
    let sign = put_byte(out, at, b' ');
    let digits = put_byte(out, sign, b'-');
    put_number(out, digits, (byte - 128) as u16)
}

// Numbers, each after one space.
pub fn put_numbers(out: &mut [u8], at: usize, numbers: &[u8]) -> usize
    requires { at + 6 * length numbers.now ≤ length out.old }
    ensures { Put (6 * length numbers.now) out.old at (numbers_text numbers.now) out.new result }
{
    let mut next = at;
    for number in numbers {
        next = put_spaced(out, next, *number as u16);
    }
    next
}

// A word in bytes, each letter after one space.
pub fn put_word(out: &mut [u8], at: usize, word: &[u8]) -> usize
    requires { at + 7 * length word.now ≤ length out.old }
    ensures { Put (7 * length word.now) out.old at (bytes_text word.now) out.new result }
{
    let mut next = at;
    for byte in word {
        next = put_letter(out, next, *byte);
    }
    next
}
