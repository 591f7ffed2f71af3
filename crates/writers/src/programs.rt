// Program images written from the letters' bytes.

ghost use Rattle.std.specs.Prelude.{◌≡◌, true, ◌≤◌};
ghost use Rattle.model.specs.Word.{letter};
ghost use Rattle.model.specs.Bits.{pack};
ghost use Rattle.model.specs.Images.{signed_bits, most_size};
ghost use Rattle.model.specs.Plain.{names_letter};
ghost use Rattle.images.specs.Widths.{WidthOf};
ghost use Rattle.plain_forms.specs.Reading.{NamesLetters};
ghost use Rattle.writers.specs.BitWriter.{Puts};
ghost use Rattle.writers.specs.Filling.{Fills};
ghost use Rattle.writers.specs.Programs.{program_bits};

use crate::bit_writer::BitWriter;
use crate::measuring::bytes_for;
use images::programs::{COUNT_BITS, SIGN_BITS};
use model::answers::Refusal;
use model::plain::BACK;

// The count's field is put in two parts: its last byte, and the bits before it.
const HIGH_BITS: u32 = COUNT_BITS as u32 - LOW_BITS;

const LOW_BITS: u32 = 8;

// The sign and the number of a letter, from its byte. They adjoin, so one field holds both.
pub fn put_signed(writer: &mut BitWriter, size: u8, width: u32, x: u8)
    requires { WidthOf size width × (names_letter size x ≡ true) }
    ensures { Puts writer.old (signed_bits size (letter x)) writer.new }
{
    let sign = (x / BACK) as u32;
    let number = (x % BACK - 1) as u32;
    writer.put(1 + width, (sign << width) + number);
}

// The count and the letters of a program, from their bytes.
pub fn put_program(plain: &[u8], size: u8, width: u32, writer: &mut BitWriter)
    requires { WidthOf size width × NamesLetters size plain.now }
    ensures { Puts writer.old (program_bits size plain.now) writer.new }
{
    writer.put(HIGH_BITS, (plain.len() / 256) as u32);
    writer.put(LOW_BITS, (plain.len() % 256) as u32);
    for x in plain {
        put_signed(writer, size, width, *x);
    }
}

// Writes the image of a program where the area has room for it.
pub fn write_program(plain: &[u8], size: u8, area: &mut [u8]) -> Result<usize, Refusal>
    requires { (1 ≤ size) × (size ≤ most_size) × NamesLetters size plain.now }
    ensures { Fills area.old (pack (program_bits size plain.now)) result area.new }
{
    let width = bits::letter_width(size);
    let bytes = bytes_for(
        COUNT_BITS + plain.len() * (SIGN_BITS + width as usize),
        area,
    )?;
    let mut writer = BitWriter::new(area);
    put_program(plain, size, width as u32, &mut writer);
    writer.close();
    Ok(bytes)
}
