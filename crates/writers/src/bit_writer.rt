// Bits put into an area one field after another. They are gathered in a register, and written a byte at a time.

ghost use Rattle.std.specs.Prelude.{◌≡◌, ◌^◌, ◌≤◌, ◌<◌, length};
ghost use Rattle.model.specs.Bits.{digits};

// The bytes before `next` are written. The last `held` bits are not written yet, and `bits` is the number that these write. They are fewer than
// eight.
#[derive(Drop)]
pub struct BitWriter<'a> {
    area: &'a mut [u8],
    next: usize,
    held: u32,
    bits: u32,
    ghost inside: { next ≤ length area.now },
    ghost few: { held < 8 },
    ghost small: { bits < 2 ^ held },
}

impl<'a> BitWriter<'a> {
    ghost use Rattle.writers.specs.BitWriter.{Begins, Puts, Closes};

    pub fn new(area: &'a mut [u8]) -> BitWriter<'a>
        ensures same_area { result.area.ghost_name ≡ area.entry.ghost_name }
        ensures begins { Begins area.old result }
    {
        BitWriter {
            area,
            next: 0,
            held: 0,
            bits: 0,
        }
    }

    // Puts a field of at most eight bits. Where the area is full, a byte is left out.
    pub fn put(&mut self, width: u32, value: u32)
        requires { (width ≤ 8) × (value < 2 ^ width) }
        ensures { Puts self.old (digits width value) self.new }
    {
        self.held += width;
        self.bits = (self.bits << width) + value;
        if self.held < 8 {
            return;
        }
        self.held -= 8;
        let byte = (self.bits >> self.held) as u8;
        self.bits %= 1 << self.held;
        if self.next < self.area.len() {
            self.area[self.next] = byte;
            self.next += 1;
        }
    }

    // Writes the bits that are held, filled with zero bits to a byte.
    pub fn close(&mut self)
        ensures { Closes self.old self.new }
    {
        if self.held > 0 && self.next < self.area.len() {
            self.area[self.next] = (self.bits << (8 - self.held)) as u8;
        }
    }
}
