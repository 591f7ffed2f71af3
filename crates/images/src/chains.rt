// Chain images: validated without writing anything, then read entry by entry.

ghost use Rattle.std.specs.Prelude.{◌≡◌, List, ◌+◌, ◌≤◌, ◌<◌, get_or};
ghost use Rattle.model.specs.Equivalence.{Entry};
ghost use Rattle.model.specs.Outcome.{answered};
ghost use Rattle.model.specs.Images.{read_chain, most_size};
ghost use Rattle.images.specs.Fields.{Before};
ghost use Rattle.images.specs.Chains.{entry_of, EntryDone, ChainDone, HasEntry};

use crate::fields;
use crate::fields::FieldFault;
use entries::entry::{COUNT_BITS, ChainEntry, OFFSET_BITS, read_entry};
use model::answers::Refusal;

pub fn next_entry(image: &[u8], at: usize, size: u8, width: usize) -> Result<ChainEntry, FieldFault>
    requires { Before image.now at size width }
    ensures { EntryDone image.now at size width result }
{
    let offset = fields::next_field(image, at, OFFSET_BITS).ok_or(FieldFault::Ends)?;
    let a = fields::next_letter(image, at + OFFSET_BITS, size, width)?;
    let b = fields::next_letter(image, at + OFFSET_BITS + width, size, width)?;
    Ok(ChainEntry { offset, a, b })
}

// The number of entries; or refusal 4 or 5, whichever is come to first, then 6 (specification 5.3). Nothing is written.
pub fn read_chain(image: &[u8], size: u8) -> Result<u16, Refusal>
    requires { (1 ≤ size) × (size ≤ most_size) }
    ensures { ChainDone image.now size result }
{
    let count = fields::next_field(image, 0, COUNT_BITS).ok_or(Refusal::ImageEnds)?;
    let width = bits::letter_width(size) as usize;
    let mut at: usize = COUNT_BITS;
    for _ in 0..count {
        next_entry(image, at, size, width).map_err(FieldFault::image_refusal)?;
        at += OFFSET_BITS + width + width;
    }
    if fields::is_filling(image, at) {
        Ok(count)
    } else {
        Err(Refusal::ImageTail)
    }
}

// An entry of a chain image that was accepted.
pub fn entry_at(image: &[u8], size: u8, i: usize) -> ChainEntry
    requires { HasEntry image.now size i }
    ensures { (es : List Entry) → read_chain size image.now ≡ answered es → entry_of result ≡ get_or es i (record { offset = 0; a = 0; b = 0 }) }
{
    read_entry(image, size, i)
}
