// The bed of a program: the bobbin at each place, and the total of each pair of bobbins.
ghost use Rattle.std.specs.Prelude.{◌≡◌, ◌+◌, ◌≤◌, ◌<◌, take, nat_abs};
ghost use Rattle.model.specs.Word.{Word};
ghost use Rattle.model.specs.Range.{InRange};
ghost use Rattle.model.specs.Enumeration.{pairs};
ghost use Rattle.model.specs.Outcome.{answered};
ghost use Rattle.model.specs.Images.{read_program, most_size};
ghost use Rattle.model.specs.Bed.{first_bed, position, crossed, moved, laid};
ghost use Rattle.images.specs.Programs.{Accepted};
ghost use Rattle.bed.specs.Shown.{Shows, Crosses, CrossedBy, Moves, MovedBy};

use images::programs;
use model::plain::BACK;

// The bobbins that the most letters have, and their pairs.
pub const MOST_BOBBINS: usize = 17;

pub const MOST_PAIRS: usize = 136;

// The bobbin at each of so many places, and the totals of the pairs of bobbins in order. What an array holds behind these says nothing.
// Kept (6): (a) the project has no heap, so that the number of places stands beside arrays that hold the most.
#[derive(Clone, Copy)]
pub struct Bed {
    pub places: usize,
    pub bobbins: [u8; MOST_BOBBINS],
    pub totals: [i16; MOST_PAIRS],
}

// The bed of so many letters before any move.
pub fn first_bed(size: u8) -> Bed
    ensures { size ≤ most_size → Shows result (first_bed size) }
{
    Bed {
        places: size as usize + 1,
        bobbins: [1, 2, 3, 4, 5, 6, 7, 8, 9, 10, 11, 12, 13, 14, 15, 16, 17],
        totals: [0; MOST_PAIRS],
    }
}

// How many pairs of so many bobbins come before the pair p, q in the order of specification 4.1.
pub fn pair_index(places: usize, p: u8, q: u8) -> usize
    requires { (1 ≤ p) × (p < q) × (q ≤ places) × (places ≤ 17) }
    ensures { result ≡ position p q (pairs places) }
{
    let rows = p as usize - 1;
    let before = rows * (2 * places - 1 - rows) / 2;
    before + (q as usize - p as usize - 1)
}

// .. before the pair of two bobbins in either order.
pub fn total_index(places: usize, x: u8, y: u8) -> usize
    requires { InRange places x × InRange places y × (x ≡ y → ⊥) × (places ≤ 17) }
    ensures { (result ≡ position x y (pairs places)) × (result < 136) }
{
    if x < y {
        return pair_index(places, x, y);
    }
    pair_index(places, y, x)
}

impl Bed {
    // The bobbins at the places i and i + 1 cross, and their total changes.
    pub fn cross(&mut self, i: u8, change: i16)
        requires { Crosses self.old i × (nat_abs change ≤ 1) }
        ensures { CrossedBy self.old i change self.new }
    {
        let high = i as usize;
        let low = high - 1;
        let x = self.bobbins[low];
        let y = self.bobbins[high];
        let at = total_index(self.places, x, y);
        self.bobbins.swap(low, high);
        self.totals[at] += change;
    }

    // One move, by its byte.
    pub fn make_move(&mut self, byte: u8)
        requires { Moves self.old byte }
        ensures { MovedBy self.old byte self.new }
    {
        if byte < BACK {
            self.cross(byte, 1);
            return;
        }
        self.cross(byte - BACK, -1);
    }
}

// The first moves of an accepted program, from the first bed on.
pub fn laid(program: &[u8], size: u8, count: u16, made: u16) -> Bed
    requires { Accepted program.now size count × (made ≤ count) }
    ensures { (w : Word) → read_program size program.now ≡ answered w → Shows result (laid (take made w) (first_bed size)) }
{
    let width = bits::letter_width(size) as u32;
    let mut bed = first_bed(size);
    for i in 0..made {
        bed.make_move(programs::letter_at(program, size, width, i as usize));
    }
    bed
}
