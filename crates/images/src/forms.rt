// The forms of a table: its image (specification 5.4) and its plain form (5.7). Both are read and written by one driver.

ghost use Rattle.std.specs.Prelude.{◌≡◌, ◌≤◌};
ghost use Rattle.images.specs.Forms.{image_form, plain_form, form_of, Narrow};
ghost use Rattle.model.specs.Images.{most_size};

use cells::layout::UNDEFINED;

// The bits of a table's number of letters, of a weight, of the mark that a pair is defined, and of a word's length.
const SIZE_BITS: u32 = 4;

const WEIGHT_BITS: u32 = 3;

const DEFINED_BITS: u32 = 1;

const LENGTH_BITS: u32 = 4;

// The bits of every field of a plain form.
const BYTE_BITS: u32 = 8;

// Which of the forms a table has.
#[derive(Clone, Copy)]
pub enum Kind {
    Image,
    Plain,
}

// The widths of the fields, and what is written in them: a number of letters, a weight and a letter, of which `low` says the first, `mark` for an
// undefined pair, `head` before the two words of any other pair, and the length of a word.
#[derive(Clone, Copy)]
pub struct Form {
    pub sizes: u32,
    pub weights: u32,
    pub opens: u32,
    pub heads: u32,
    pub lengths: u32,
    pub letters: u32,
    pub low: u8,
    pub mark: u8,
    pub head: u8,
}

// A form with the number of letters of the table that is in it. No field is wider than a byte.
#[derive(Clone, Copy)]
pub struct TableForm {
    pub fields: Form,
    pub size: u8,
    ghost narrow: { Narrow fields },
    ghost few: { size ≤ most_size },
}

// The image of a table of so many letters.
pub fn image_form(size: u8) -> Form
    requires { (1 ≤ size) × (size ≤ most_size) }
    ensures { result ≡ image_form size }
{
    Form {
        sizes: SIZE_BITS,
        weights: WEIGHT_BITS,
        opens: DEFINED_BITS,
        heads: DEFINED_BITS,
        lengths: LENGTH_BITS,
        letters: bits::letter_width(size) as u32,
        low: 0,
        mark: 0,
        head: 1,
    }
}

// The plain form of a table: every field is a byte, and the length of its first word is the head of a pair.
pub fn plain_form() -> Form
    ensures { result ≡ plain_form }
{
    Form {
        sizes: BYTE_BITS,
        weights: BYTE_BITS,
        opens: BYTE_BITS,
        heads: 0,
        lengths: BYTE_BITS,
        letters: BYTE_BITS,
        low: 1,
        mark: UNDEFINED,
        head: 0,
    }
}

// The form of a table of so many letters.
pub fn form_of(kind: Kind, size: u8) -> Form
    requires { (1 ≤ size) × (size ≤ most_size) }
    ensures { result ≡ form_of kind size }
{
    match kind {
        Kind::Image => image_form(size),
        Kind::Plain => plain_form(),
    }
}
