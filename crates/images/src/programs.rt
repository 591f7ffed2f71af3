// Program images: validated without writing anything, then read letter by letter.

ghost use Rattle.std.specs.Prelude.{◌≡◌, ◌+◌, ◌*◌, ◌≤◌, ◌<◌, length, get_or};
ghost use Rattle.model.specs.Word.{Word, byte, forward};
ghost use Rattle.model.specs.Outcome.{answered};
ghost use Rattle.model.specs.Images.{read_program};
ghost use Rattle.model.specs.Plain.{plain_program};
ghost use Rattle.model.specs.Areas.{written};
ghost use Rattle.cells.specs.Stands.{Sized};
ghost use Rattle.model.specs.Bits.{filling};
ghost use Rattle.images.specs.Widths.{WidthOf};
ghost use Rattle.images.specs.Programs.{SignedDone, Tallies, with_letter, ended_by, ProgramDone, Accepted, HasLetter, ReadDone};

use crate::bit_reader::BitReader;
use crate::fields;
use crate::fields::FieldFault;
use cells::weights::letter_weight;
use model::answers::Refusal;
use model::plain::BACK;

// The bits of a program's count, and of a letter's sign.
pub const COUNT_BITS: usize = 12;

pub const SIGN_BITS: usize = 1;

// A letter by its sign, 1 of a back letter, and its number.
// Kept (1): (d) the sign is a digit of the letter's byte and is added to the number of back letters, so that it is calculated with as a number.
#[derive(Clone, Copy)]
pub struct SignedLetter {
    pub sign: u8,
    pub number: u8,
}

// A program: how many letters it has, whether all of them are forward, and the sum of the letters' weights.
#[derive(Clone, Copy)]
pub struct ProgramRead {
    pub count: u16,
    pub forward: bool,
    pub weight: u16,
}

// The sign and the number of a letter adjoin, so that they are taken as one field.
pub fn next_signed(reader: &mut BitReader, size: u8, width: u32) -> Result<SignedLetter, FieldFault>
    requires { WidthOf size width }
    ensures { SignedDone reader.old size result reader.new }
{
    let field = reader.take(1 + width).ok_or(FieldFault::Ends)?;
    let number = (field % (1 << width)) as u8;
    if size <= number {
        return Err(FieldFault::Wrong);
    }
    Ok(SignedLetter {
        sign: (field >> width) as u8,
        number: number + 1,
    })
}

// Of the letters that were passed: how many are back, and what all weigh.
#[derive(Clone, Copy)]
pub struct Tally {
    pub backs: u16,
    pub weight: u16,
}

// With one letter more.
pub fn tallied(tally: Tally, cells: &[u8], letter: SignedLetter) -> Tally
    requires { Tallies cells.now tally letter.sign letter.number }
    ensures { result ≡ with_letter cells.now tally letter.sign letter.number }
{
    Tally {
        backs: tally.backs + letter.sign as u16,
        weight: tally.weight + letter_weight(cells, letter.number),
    }
}

// A program whose letters were passed, if only a filling follows.
pub fn ended(reader: &BitReader, count: u16, tally: Tally) -> Result<ProgramRead, Refusal>
    ensures { result ≡ ended_by (filling reader.now) count tally }
{
    if reader.is_end() {
        Ok(ProgramRead {
            count,
            forward: tally.backs == 0,
            weight: tally.weight,
        })
    } else {
        Err(Refusal::ImageTail)
    }
}

// The program; or refusal 4 or 5, whichever is come to first, then 6 (specification 5.3). Nothing is written. Inlined, since a caller that does not ask for
// the weight need not work it out.
#[inline(always)]
pub fn read_program(image: &[u8], cells: &[u8], size: u8) -> Result<ProgramRead, Refusal>
    requires { Sized cells.now size }
    ensures { ProgramDone image.now cells.now size result }
{
    let count = fields::next_field(image, 0, COUNT_BITS).ok_or(Refusal::ImageEnds)?;
    let width = bits::letter_width(size) as u32;
    let mut reader = BitReader::at(image, COUNT_BITS);
    let mut tally = Tally {
        backs: 0,
        weight: 0,
    };
    for _ in 0..count {
        let letter = next_signed(&mut reader, size, width).map_err(FieldFault::image_refusal)?;
        tally = tallied(tally, cells, letter);
    }
    ended(&reader, count, tally)
}

// The byte of a letter of a program image that was accepted.
pub fn letter_at(image: &[u8], size: u8, width: u32, i: usize) -> u8
    requires { HasLetter image.now size width i }
    ensures { (w : Word) → read_program size image.now ≡ answered w → result ≡ byte (get_or w i (forward 0)) }
{
    let mut reader = BitReader::at(image, COUNT_BITS + i * (SIGN_BITS + width as usize));
    let letter = next_signed(&mut reader, size, width).unwrap();
    letter.sign * BACK + letter.number
}

// Writes the letters' bytes of an accepted program into an area, from a place on. That every field names a letter is known, and not tested again.
pub fn unpack_letters(image: &[u8], size: u8, count: u16, area: &mut [u8], at: usize)
    requires { Accepted image.now size count × (at + count ≤ length area.old) }
    ensures length { length area.new ≡ length area.old }
    ensures bytes { (w : Word) → read_program size image.now ≡ answered w → area.new ≡ written area.old at
        (plain_program w) }
{
    let width = bits::letter_width(size) as u32;
    let mut reader = BitReader::at(image, COUNT_BITS);
    for i in 0..count as usize {
        let field = reader.take(1 + width).unwrap();
        let sign = (field >> width) as u8;
        let number = (field % (1 << width)) as u8;
        area[at + i] = sign * BACK + number + 1;
    }
}

// The letters that a service takes: of either sign, or forward letters alone.
#[derive(Clone, Copy)]
pub enum Signs {
    Any,
    Forward,
}

// As `read_program`; then, where a service takes forward letters alone, refusal 7 where one is a back letter.
pub fn read_as(image: &[u8], cells: &[u8], size: u8, signs: Signs) -> Result<ProgramRead, Refusal>
    requires { Sized cells.now size }
    ensures { ReadDone image.now cells.now size signs result }
{
    let read = read_program(image, cells, size)?;
    if read.forward {
        return Ok(read);
    }
    match signs {
        Signs::Any => Ok(read),
        Signs::Forward => Err(Refusal::BackMove),
    }
}
