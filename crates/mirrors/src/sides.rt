// A side of a relation: a letter, followed by the letters that a cell holds.
ghost use Rattle.std.specs.Prelude.{◌+◌, ◌≤◌, length};
ghost use Rattle.mirrors.specs.Sides.{Short, EndsIn, PutBackward};
ghost use Rattle.cells.specs.Layout.{cell_length};

use areas::bytes::copy_bytes;

// The last letter of the side that begins with a.
pub fn last_letter(cells: &[u8], a: u8, cell: usize) -> u8
    requires { Short cells.now cell }
    ensures { EndsIn cells.now a cell result }
{
    let count = cells[cell] as usize;
    if count == 0 { a } else { cells[cell + count] }
}

// Writes what stands before the last letter of the side that begins with a, backward, into a cell of the mirror.
pub fn put_backward(cells: &[u8], a: u8, cell: usize, mirror: &mut [u8], to: usize)
    requires side { Short cells.now cell }
    requires room { to + cell_length ≤ length mirror.old }
    ensures { PutBackward cells.now a cell mirror.old to mirror.new }
{
    let count = cells[cell] as usize;
    mirror[to] = cells[cell];
    if count > 0 {
        let back = &mut mirror[to + 1..to + count];
        copy_bytes(&cells[cell + 1..cell + count], back);
        back.reverse();
        mirror[to + count] = a;
    }
}
