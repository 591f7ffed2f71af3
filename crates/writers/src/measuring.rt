// How many bits tables have in either form, and whether an area has room for them.

ghost use Rattle.std.specs.Prelude.{List, ◌≡◌, ℕ, ◌+◌, ◌≤◌, length};
ghost use Rattle.model.specs.Presentation.{Complement};
ghost use Rattle.model.specs.Enumeration.{concat_map};
ghost use Rattle.cells.specs.Layout.{Letters};
ghost use Rattle.cells.specs.Stands.{HoldsWeights};
ghost use Rattle.cells.specs.Kept.{HoldsPair};
ghost use Rattle.images.specs.Tables.{HoldsRow, RowsHeld};
ghost use Rattle.writers.specs.Filling.{Needs};
ghost use Rattle.writers.specs.Forms.{pair_as, table_as};
ghost use Rattle.writers.specs.Held.{HoldsSomePair, HoldsSomeRow, HoldsSomeTable};

use crate::source::Source;
use cells::layout::{UNDEFINED, cell_at};
use model::answers::Refusal;

// The bytes that so many bits fill, where an area has room for them.
pub(crate) fn bytes_for(bits: usize, area: &[u8]) -> Result<usize, Refusal>
    ensures { Needs bits area.now result }
{
    let bytes = bits.div_ceil(8);
    if area.len() < bytes {
        return Err(Refusal::AnswerShort);
    }
    Ok(bytes)
}

impl Source<'_> {
    // The bits of a pair.
    pub fn pair_bits(&self, a: u8, b: u8) -> usize
        requires { HoldsSomePair self.now.size self.now.cells.now a b × Letters a b }
        ensures bits { (pair : Complement) → HoldsPair self.now.size self.now.cells.now a b pair → result ≡ length (pair_as self.now.form pair) }
        ensures near { result ≤ 264 }
    {
        let first = self.cells[cell_at(a, b)];
        if first == UNDEFINED {
            return self.form.opens as usize;
        }
        let letters = first as usize + self.cells[cell_at(b, a)] as usize;
        self.form.heads as usize
            + 2 * (self.form.lengths as usize)
            + letters * (self.form.letters as usize)
    }

    // The bits of the pairs of a letter with those after it.
    pub fn row_bits(&self, a: u8) -> usize
        requires { HoldsSomeRow self.now.size self.now.cells.now a }
        ensures bits { (row : List Complement) → HoldsRow self.now.size self.now.cells.now a row → length row + a ≡ self.now.size
            → result ≡ length (concat_map (pair_as self.now.form) row) }
        ensures near { result ≤ 3960 }
    {
        let mut bits: usize = 0;
        for b in a + 1..self.size + 1 {
            bits += self.pair_bits(a, b);
        }
        bits
    }

    // The bits of a table.
    pub fn table_bits(&self) -> usize
        requires { HoldsSomeTable self.now.size self.now.cells.now }
        ensures bits { (excess : List ℕ) (rows : List (List Complement)) → HoldsWeights self.now.size self.now.cells.now excess
            → RowsHeld self.now.size self.now.cells.now rows → result ≡ length (table_as self.now.form self.now.size excess rows) }
        ensures near { result ≤ 65535 }
    {
        let mut bits = self.form.sizes as usize
            + (self.size as usize) * (self.form.weights as usize);
        for a in 1..self.size + 1 {
            bits += self.row_bits(a);
        }
        bits
    }
}
