// Tables written from cells, in either form.

ghost use Rattle.std.specs.Prelude.{List, ◌≡◌, ℕ, ◌+◌, ◌≤◌, length};
ghost use Rattle.model.specs.Word.{Positive};
ghost use Rattle.model.specs.Presentation.{Complement};
ghost use Rattle.model.specs.Enumeration.{concat_map};
ghost use Rattle.model.specs.Bits.{pack};
ghost use Rattle.cells.specs.Layout.{Letters, cell_length, cell_bytes};
ghost use Rattle.cells.specs.Stands.{HoldsWord, HoldsWeights};
ghost use Rattle.cells.specs.Kept.{HoldsPair};
ghost use Rattle.images.specs.Tables.{HoldsRow, RowsHeld};
ghost use Rattle.writers.specs.BitWriter.{Puts};
ghost use Rattle.writers.specs.Filling.{Fills};
ghost use Rattle.writers.specs.Forms.{FormFor, word_as, pair_as, weight_as, table_as};
ghost use Rattle.writers.specs.Held.{HoldsSomeWord, HoldsSomePair, HoldsSomeRow, HoldsSomeTable};

use crate::bit_writer::BitWriter;
use crate::measuring::bytes_for;
use crate::source::Source;
use cells::layout::{UNDEFINED, cell_at, weight_at};
use images::forms::Form;
use model::answers::Refusal;

impl Source<'_> {
    // A word, from its cell.
    pub fn put_word(&self, cell: usize, writer: &mut BitWriter)
        requires { HoldsSomeWord self.now.size self.now.cells.now cell × (cell + cell_length ≤ length self.now.cells.now) }
        ensures { (x : Positive) → HoldsWord self.now.size self.now.cells.now cell x → Puts writer.old (word_as self.now.form x) writer.new }
    {
        let count = self.cells[cell];
        writer.put(self.form.lengths, count as u32);
        let first = cell + 1;
        for a in &self.cells[first..first + count as usize] {
            writer.put(self.form.letters, (*a - (1 - self.form.low)) as u32);
        }
    }

    // A pair, from its cells.
    pub fn put_pair(&self, a: u8, b: u8, writer: &mut BitWriter)
        requires { HoldsSomePair self.now.size self.now.cells.now a b × Letters a b }
        ensures { (pair : Complement) → HoldsPair self.now.size self.now.cells.now a b pair → Puts writer.old (pair_as self.now.form pair) writer.new }
    {
        let there = cell_at(a, b);
        let back = cell_at(b, a);
        if self.cells[there] == UNDEFINED {
            writer.put(self.form.opens, self.form.mark as u32);
            return;
        }
        writer.put(self.form.heads, self.form.head as u32);
        self.put_word(there, writer);
        self.put_word(back, writer);
    }

    // The pairs of a letter with those after it.
    pub fn put_row(&self, a: u8, writer: &mut BitWriter)
        requires { HoldsSomeRow self.now.size self.now.cells.now a }
        ensures { (row : List Complement) → HoldsRow self.now.size self.now.cells.now a row → length row + a ≡ self.now.size
            → Puts writer.old (concat_map (pair_as self.now.form) row) writer.new }
    {
        for b in a + 1..self.size + 1 {
            self.put_pair(a, b, writer);
        }
    }

    // The weights of the letters, from their places.
    pub fn put_weights(&self, writer: &mut BitWriter)
        requires { HoldsSomeTable self.now.size self.now.cells.now }
        ensures { (excess : List ℕ) → HoldsWeights self.now.size self.now.cells.now excess
            → Puts writer.old (concat_map (weight_as self.now.form) excess) writer.new }
    {
        for a in 1..self.size + 1 {
            let weight = self.cells[weight_at(a)];
            writer.put(self.form.weights, (weight + self.form.low) as u32);
        }
    }

    // The pairs of a table, from their cells.
    pub fn put_rows(&self, writer: &mut BitWriter)
        requires { HoldsSomeTable self.now.size self.now.cells.now }
        ensures { (rows : List (List Complement)) → RowsHeld self.now.size self.now.cells.now rows
            → Puts writer.old (concat_map (concat_map (pair_as self.now.form)) rows) writer.new }
    {
        for a in 1..self.size + 1 {
            self.put_row(a, writer);
        }
    }

    // A table, from its cells.
    pub fn put_table(&self, writer: &mut BitWriter)
        requires { HoldsSomeTable self.now.size self.now.cells.now }
        ensures { (excess : List ℕ) (rows : List (List Complement)) → HoldsWeights self.now.size self.now.cells.now excess
            → RowsHeld self.now.size self.now.cells.now rows → Puts writer.old (table_as self.now.form self.now.size excess rows) writer.new }
    {
        writer.put(self.form.sizes, (self.size - (1 - self.form.low)) as u32);
        self.put_weights(writer);
        self.put_rows(writer);
    }
}

// Writes a table where the area has room for it.
pub fn write_table(cells: &[u8], size: u8, form: Form, area: &mut [u8]) -> Result<usize, Refusal>
    requires { HoldsSomeTable size cells.now × FormFor size form × (length cells.now ≡ cell_bytes) }
    ensures { (excess : List ℕ) (rows : List (List Complement)) → HoldsWeights size cells.now excess
        → RowsHeld size cells.now rows → Fills area.old (pack (table_as form size excess rows)) result area.new }
{
    let table = Source { cells, size, form };
    let bytes = bytes_for(table.table_bits(), area)?;
    let mut writer = BitWriter::new(area);
    table.put_table(&mut writer);
    writer.close();
    Ok(bytes)
}
