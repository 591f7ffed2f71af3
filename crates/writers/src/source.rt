// What tables are written from.

ghost use Rattle.std.specs.Prelude.{◌≡◌, length};
ghost use Rattle.cells.specs.Layout.{cell_bytes};
ghost use Rattle.writers.specs.Forms.{FormFor};

use images::forms::Form;

// A table in cells, and the form that it is written in. Every number fits its field, and the cells are all there.
// Kept (5): (d) that the cells hold some table stays a clause: a ghost field has it within ∥ ∥₁, where each row and pair taken from it would be, too.
#[derive(Clone, Copy)]
pub struct Source<'a> {
    pub cells: &'a [u8],
    pub size: u8,
    pub form: Form,
    ghost fits: { FormFor size form },
    ghost whole: { length cells.now ≡ cell_bytes },
}
