ghost use Rattle.std.specs.Prelude.{◌≡◌, ◌≤◌, ◌<◌};
ghost use Rattle.model.specs.Images.{entry_position, entry_bits, most_size};
ghost use Rattle.model.specs.Services.{chain_bytes};
ghost use Rattle.entries.specs.Entry.{EntryInside, ReadsEntry};
ghost use Rattle.bits.specs.Fields.{Appended};

use bits::{letter_width, read_field, write_field};

// The bits of a chain's count, and of an entry's offset.
pub const COUNT_BITS: usize = 16;

pub const OFFSET_BITS: usize = 15;

// An entry (specification 2.3): which side of the relation of a, b is exchanged, and where. While a chain is listed, an entry may stand for a
// face that is not done, with the number of its letters left as the offset.
#[derive(Clone, Copy)]
pub struct ChainEntry {
    pub offset: u16,
    pub a: u8,
    pub b: u8,
}

// Where an entry begins.
pub fn position(size: u8, index: usize) -> usize
    requires { (1 ≤ size) × (size ≤ most_size) × (index < 65536) }
    ensures { result ≡ entry_position size index }
{
    let width = letter_width(size) as usize;
    COUNT_BITS + index * (OFFSET_BITS + 2 * width)
}

// The bytes of a chain's image with so many entries.
pub fn chain_bytes(size: u8, entries: u16) -> usize
    requires { (1 ≤ size) × (size ≤ most_size) }
    ensures { result ≡ chain_bytes size entries }
{
    position(size, entries as usize).div_ceil(8)
}

// Writes the three fields of an entry, gathered in one, and changes no other bit.
pub fn write_entry(area: &mut [u8], size: u8, index: usize, entry: ChainEntry)
    requires inside { EntryInside size index area.old }
    requires letters { (1 ≤ entry.a) × (1 ≤ entry.b) }
    ensures { Appended area.old (entry_position size index) (entry_bits size (record { offset = entry.offset; a = entry.a; b = entry.b }))
        area.new }
{
    let at = position(size, index);
    let width = letter_width(size) as usize;
    let span: u32 = 1 << width;
    let first = (entry.a - 1) as u32 % span;
    let second = (entry.b - 1) as u32 % span;
    let fields = ((entry.offset as u32) * span + first) * span + second;
    write_field(area, at, OFFSET_BITS + 2 * width, fields);
}

// The entry that stands at an index.
pub fn read_entry(area: &[u8], size: u8, index: usize) -> ChainEntry
    requires { EntryInside size index area.now }
    ensures { ReadsEntry size index area.now result }
{
    let at = position(size, index);
    let width = letter_width(size) as usize;
    let offset = read_field(area, at, OFFSET_BITS);
    let a = read_field(area, at + OFFSET_BITS, width);
    let b = read_field(area, at + OFFSET_BITS + width, width);
    ChainEntry {
        offset,
        a: (a + 1) as u8,
        b: (b + 1) as u8,
    }
}
