// The bits of an image from one position on, taken a byte of the image at a time.

ghost use Rattle.std.specs.Prelude.{List, ℕ, ◌≡◌, ◌*◌, ◌≤◌, length};
ghost use Rattle.model.specs.Bits.{filling};
ghost use Rattle.images.specs.Fields.{from};
ghost use Rattle.images.specs.BitReader.{left, Reads, TakenDone, NumberDone};

use crate::fields::FieldFault;
use std::marker::Model;

// The bytes before `next` were read. Of their bits the last `held` are not taken yet, and the last `held` digits of `bits` are these.
#[derive(Clone, Drop)]
pub struct BitReader<'a> {
    image: &'a [u8],
    next: usize,
    held: u32,
    bits: u32,
}

// A clause sees the bits that are left to take.
impl<'a> Model for BitReader<'a> {
    ghost Value = { List ℕ };

    ghost view = { λ r. left r.image.now r.next r.held };

    ghost invariant = { λ r. Reads r.image.now r.next r.held r.bits };
}

impl<'a> BitReader<'a> {
    // The reader at a position of an image.
    pub fn at(image: &'a [u8], at: usize) -> BitReader<'a>
        requires { at ≤ 8 * length image.now }
        ensures { result ≡ from image.now at }
    {
        if at % 8 == 0 {
            return BitReader {
                image,
                next: at / 8,
                held: 0,
                bits: 0,
            };
        }
        BitReader {
            image,
            next: at / 8 + 1,
            held: (8 - at % 8) as u32,
            bits: image[at / 8] as u32,
        }
    }

    // A second reader that stands where this one does.
    // Kept (4): (d) a type with a `Model` and a lifetime has no `Copy`, and a `Clone` gives a `Result`.
    pub fn twin(&self) -> BitReader<'a>
        ensures { result ≡ self.now }
    {
        BitReader {
            image: self.image,
            next: self.next,
            held: self.held,
            bits: self.bits,
        }
    }

    // The next field, of at most eight bits, if there are as many bits.
    pub fn take(&mut self, width: u32) -> Option<u32>
        requires { width ≤ 8 }
        ensures { TakenDone self.old width result self.new }
    {
        if self.held < width {
            if self.next == self.image.len() {
                return None;
            }
            self.bits = (self.bits % 256) * 256 + self.image[self.next] as u32;
            self.next += 1;
            self.held += 8;
        }
        self.held -= width;
        Some((self.bits >> self.held) % (1 << width))
    }

    // The next field, in which `low` says the first of `many` numbers. These are counted from 0.
    pub fn take_number(&mut self, width: u32, low: u8, many: u8) -> Result<u8, FieldFault>
        requires { width ≤ 8 }
        ensures { NumberDone self.old width low many result self.new }
    {
        let value = self.take(width).ok_or(FieldFault::Ends)?;
        let number = value.checked_sub(low as u32).ok_or(FieldFault::Wrong)?;
        if many as u32 <= number {
            return Err(FieldFault::Wrong);
        }
        Ok(number as u8)
    }

    // Whether only a filling follows: fewer than eight bits, all zero.
    pub fn is_end(&self) -> bool
        ensures { result ≡ filling self.now }
    {
        self.next == self.image.len() && self.bits % (1 << self.held) == 0
    }
}
