// Fields of an image: the next number, the next letter, and the end.
// Kept (2): (d) fields of 12 to 16 bits are read by one call here, and the letters beside them. A `BitReader` would take each in parts, joined by laws.

ghost use Rattle.std.specs.Prelude.{◌≡◌, ◌+◌, ◌*◌, ◌≤◌, drop};
ghost use Rattle.model.specs.Bits.{bits_of, letter_width, filling};
ghost use Rattle.model.specs.Images.{most_size};
ghost use Rattle.images.specs.Fields.{FieldDone, LetterDone, Position, image_refusal, table_refusal};

use model::answers::Refusal;

// Why a field gives no value: too few bits are left, or they say none of the values that it may have.
#[derive(Clone, Copy, Debug, PartialEq, Eq)]
pub enum FieldFault {
    Ends,
    Wrong,
}

impl FieldFault {
    // In the image of a program or a chain.
    pub(crate) fn image_refusal(self) -> Refusal
        ensures { result ≡ image_refusal self }
    {
        match self {
            FieldFault::Ends => Refusal::ImageEnds,
            FieldFault::Wrong => Refusal::ImageField,
        }
    }

    // In a table.
    pub(crate) fn table_refusal(self) -> Refusal
        ensures { result ≡ table_refusal self }
    {
        match self {
            FieldFault::Ends => Refusal::TableEnds,
            FieldFault::Wrong => Refusal::TableField,
        }
    }
}

// The number that a field says, if the image has as many bits.
pub fn next_field(image: &[u8], at: usize, width: usize) -> Option<u16>
    requires { Position image.now at width }
    ensures { FieldDone image.now at width result }
{
    if image.len() < (at + width).div_ceil(8) {
        return None;
    }
    Some(bits::read_field(image, at, width))
}

// `width` is the width of a letter under `size` letters.
pub fn next_letter(image: &[u8], at: usize, size: u8, width: usize) -> Result<u8, FieldFault>
    requires { Position image.now at width × (width ≡ letter_width size) × (size ≤ most_size) }
    ensures { LetterDone image.now at size width result }
{
    let value = next_field(image, at, width).ok_or(FieldFault::Ends)?;
    if size as u16 <= value {
        return Err(FieldFault::Wrong);
    }
    Ok((value + 1) as u8)
}

// Whether only a filling follows: fewer than eight bits, all zero.
pub fn is_filling(image: &[u8], at: usize) -> bool
    requires { Position image.now at 0 }
    ensures { result ≡ filling (drop at (bits_of image.now)) }
{
    if at.div_ceil(8) < image.len() {
        return false;
    }
    let width = 8 * image.len() - at;
    bits::read_field(image, at, width) == 0
}
