ghost use Rattle.std.specs.Prelude.{◌≡◌, ◌+◌, ◌≤◌, length, get_or, take, drop};

// The word that a cell holds, behind its length.
pub fn cell_word(cells: &[u8], cell: usize) -> &[u8]
    requires { cell + 1 + get_or cells.now cell 0 ≤ length cells.now }
    ensures length { length result.now ≡ get_or cells.now cell 0 }
    ensures word { result.now ≡ take (get_or cells.now cell 0) (drop (cell + 1) cells.now) }
{
    let first = cell + 1;
    &cells[first..first + cells[cell] as usize]
}
