ghost use Rattle.std.specs.Prelude.{◌≡◌, suc, length, get_or};
ghost use Rattle.model.specs.Range.{InRange};
ghost use Rattle.model.specs.Images.{most_size};
ghost use Rattle.cells.specs.Layout.{cell_bytes, weight_at};

use crate::layout::weight_at;

// The weight of a letter.
pub fn letter_weight(cells: &[u8], a: u8) -> u16
    requires full { length cells.now ≡ cell_bytes }
    requires letter { InRange most_size a }
    ensures { result ≡ suc (get_or cells.now (weight_at a) 0) }
{
    cells[weight_at(a)] as u16 + 1
}
