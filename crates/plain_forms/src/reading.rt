// Reading plain forms: a program is a byte a letter; a table its number of letters, their weights, then its pairs.
ghost use Rattle.std.specs.Prelude.{◌≡◌, ◌≤◌, length, not, count_by};
ghost use Rattle.model.specs.Plain.{names_letter, most_letters};
ghost use Rattle.cells.specs.Stands.{Blank};
ghost use Rattle.plain_forms.specs.Reading.{PlainDone, PlainTableDone};

use images::forms::Kind;
use images::tables::read_form;
use model::answers::Refusal;
use model::plain::{BACK, MOST_LETTERS};

// Whether a byte names a letter, forward or back.
pub fn names_letter(x: u8, size: u8) -> bool
    ensures { result ≡ names_letter size x }
{
    (1..=size).contains(&(x % BACK))
}

// How many bytes name no letter. All are looked at, and the first of them is not looked for: a loop that always runs to the end is several bytes at a time on
// processors that can.
// Kept (3): (b) `filter` and `count` take a byte at a time here: packing 4,000 moves takes 1.3 times Rust's, and 0.9 so (bar 1.1).
fn unnamed(plain: &[u8], size: u8) -> u16
    requires { length plain.now ≤ most_letters }
    ensures { result ≡ count_by (λ x. not (names_letter size x)) plain.now }
{
    let mut others: u16 = 0;
    for x in plain {
        others += !names_letter(*x, size) as u16;
    }
    others
}

// Refusal 4 where there are too many letters, then 5 where a byte names none.
pub fn read_plain_program(plain: &[u8], size: u8) -> Result<(), Refusal>
    ensures { PlainDone plain.now size result }
{
    if plain.len() > MOST_LETTERS {
        return Err(Refusal::ImageEnds);
    }
    if unnamed(plain, size) > 0 {
        return Err(Refusal::ImageField);
    }
    Ok(())
}

// Refusal 1 or 2, whichever is come to first, then 3 (specification 5.7). After an answer the cells stand for the table.
pub fn read_plain_table(plain: &[u8], cells: &mut [u8]) -> Result<u8, Refusal>
    requires { Blank cells.old }
    ensures length { length cells.new ≡ length cells.old }
    ensures table { PlainTableDone plain.now cells.new result }
{
    read_form(plain, Kind::Plain, cells)
}
