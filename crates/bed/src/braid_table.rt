// Whether a table is the braid table of its number of letters (specification 2.4).
ghost use Rattle.std.specs.Prelude.{◌≡◌, ◌≤◌};
ghost use Rattle.cells.specs.Stands.{Sized, Of, Filled, Blank};
ghost use Rattle.model.specs.Presentation.{Presentation};
ghost use Rattle.model.specs.Bed.{is_braid, adjacent};
ghost use Rattle.model.specs.Images.{most_size};
ghost use Rattle.bed.specs.BraidTable.{WordDecided, RowDecided, BraidDone};

use cells::layout::cell_at;
use images::tables::read_table;
use model::answers::Refusal;

pub fn are_adjacent(a: u8, b: u8) -> bool
    requires { (a ≤ most_size) × (b ≤ most_size) }
    ensures { result ≡ adjacent a b }
{
    a.abs_diff(b) == 1
}

// Whether C(a,b) is b a, for letters that differ by 1, or b.
pub fn has_braid_word(cells: &[u8], a: u8, b: u8) -> bool
    requires { Filled cells.now a b }
    ensures { WordDecided cells.now a b result }
{
    let cell = cell_at(a, b);
    if are_adjacent(a, b) {
        return cells[cell..cell + 3] == [2, b, a];
    }
    cells[cell..cell + 2] == [1, b]
}

// The pairs of one letter with those after it.
pub fn is_braid_row(cells: &[u8], size: u8, a: u8) -> bool
    requires { Sized cells.now size × (1 ≤ a) × (a ≤ size) }
    ensures { RowDecided cells.now size a result }
{
    for b in a + 1..size + 1 {
        if !has_braid_word(cells, a, b) {
            return false;
        }
        if !has_braid_word(cells, b, a) {
            return false;
        }
    }
    true
}

pub fn is_braid(cells: &[u8], size: u8) -> bool
    requires { Sized cells.now size }
    ensures { (T : Presentation) → Of cells.now size T → result ≡ is_braid T }
{
    for a in 1..size + 1 {
        if !is_braid_row(cells, size, a) {
            return false;
        }
    }
    true
}

// As reading a table into cells, then refusal 15 where it is not a braid table.
pub fn read_braid(image: &[u8], cells: &mut [u8]) -> Result<u8, Refusal>
    requires { Blank cells.old }
    ensures { BraidDone image.now cells.new result }
{
    let size = read_table(image, cells)?;
    if is_braid(cells, size) {
        return Ok(size);
    }
    Err(Refusal::NotBraidTable)
}
