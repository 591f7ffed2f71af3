// Lines: a label, what follows it, and a newline.
ghost use Rattle.std.specs.Prelude.{◌+◌, ◌*◌, ◌≤◌, length};
ghost use Rattle.text.specs.Text.{line, spaced_number, numbers_text, bytes_text, answer_text};
ghost use Rattle.text.specs.Put.{Put};

use crate::pieces::{put_byte, put_label, put_numbers, put_spaced, put_word};

pub fn put_number_line(out: &mut [u8], at: usize, label: &[u8], x: u16) -> usize
    requires { at + (length label.now + 7) ≤ length out.old }
    ensures { Put (length label.now + 7) out.old at (line label.now (spaced_number x)) out.new result }
{
    let labelled = put_label(out, at, label);
    let numbered = put_spaced(out, labelled, x);
    put_byte(out, numbered, b'\n')
}

pub fn put_numbers_line(out: &mut [u8], at: usize, label: &[u8], numbers: &[u8]) -> usize
    requires { at + (length label.now + (6 * length numbers.now + 1)) ≤ length out.old }
    ensures { Put (length label.now + (6 * length numbers.now + 1)) out.old at
        (line label.now (numbers_text numbers.now)) out.new result }
{
    let labelled = put_label(out, at, label);
    let listed = put_numbers(out, labelled, numbers);
    put_byte(out, listed, b'\n')
}

pub fn put_word_line(out: &mut [u8], at: usize, label: &[u8], word: &[u8]) -> usize
    requires { at + (length label.now + (7 * length word.now + 1)) ≤ length out.old }
    ensures { Put (length label.now + (7 * length word.now + 1)) out.old at
        (line label.now (bytes_text word.now)) out.new result }
{
    let labelled = put_label(out, at, label);
    let spelled = put_word(out, labelled, word);
    put_byte(out, spelled, b'\n')
}

// The five lines of an answer, of a program and of a numerator and a denominator in bytes.
pub fn put_answer(
    out: &mut [u8],
    size: u8,
    program: &[u8],
    numerator: &[u8],
    denominator: &[u8],
    steps: u16,
) -> usize
    requires { 7 * length program.now + (6 * length numerator.now + (6 * length denominator.now + 64)) ≤ length out.old }
    ensures { Put (7 * length program.now + (6 * length numerator.now + (6 * length denominator.now + 64)))
        out.old 0 (answer_text size (bytes_text program.now) numerator.now denominator.now steps)
        out.new result }
{
    let after_moves = put_number_line(out, 0, b"moves", size as u16);
    let after_program = put_word_line(out, after_moves, b"program", program);
    let after_numerator = put_numbers_line(out, after_program, b"numerator", numerator);
    let after_denominator = put_numbers_line(out, after_numerator, b"denominator", denominator);
    put_number_line(out, after_denominator, b"steps", steps)
}
