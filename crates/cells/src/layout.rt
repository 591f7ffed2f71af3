ghost use Rattle.std.specs.Prelude.{◌≡◌};
ghost use Rattle.model.specs.Range.{InRange};
ghost use Rattle.model.specs.Images.{most_size};
ghost use Rattle.cells.specs.Layout.{Letters, cell_at, weight_at};

// The most letters of a table, and the bytes of a cell: a length, and the letters of a completion.
const LETTERS: usize = 16;

const CELL: usize = 16;

// The bytes of all cells.
pub const CELLS: usize = LETTERS * LETTERS * CELL;

// What stands for the length of C(a,b) in the cell of an undefined pair, as a byte and as a length.
pub const UNDEFINED: u8 = 255;

pub const UNDEFINED_LENGTH: usize = UNDEFINED as usize;

// Where the cell of a pair begins.
pub fn cell_at(a: u8, b: u8) -> usize
    requires { Letters a b }
    ensures { result ≡ cell_at a b }
{
    ((a as usize - 1) * LETTERS + (b as usize - 1)) * CELL
}

// Where the weight of a letter lies, less 1.
pub fn weight_at(a: u8) -> usize
    requires { InRange most_size a }
    ensures { result ≡ weight_at a }
{
    cell_at(a, a) + 1
}
