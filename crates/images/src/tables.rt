// Tables in either form: read once into cells, from which the engine takes complements.

ghost use Rattle.std.specs.Prelude.{◌≡◌, ◌+◌, ◌≤◌, ◌<◌, length};
ghost use Rattle.cells.specs.Layout.{Letters, cell_length, cell_bytes};
ghost use Rattle.cells.specs.Stands.{Blank};
ghost use Rattle.images.specs.Forms.{Narrow, table_in};
ghost use Rattle.images.specs.Tables.{WordDone, HeadDone, PairDone, RowDone, WeightsDone, RowsDone, LoadedAs, TableDone, SizeDone};

use crate::bit_reader::BitReader;
use crate::fields::FieldFault;
use crate::forms::{Form, Kind, TableForm, form_of};
use cells::layout::{CELLS, UNDEFINED, cell_at, weight_at};
use model::answers::Refusal;
use model::plain::MOST_WEIGHT;

// The most letters of a table, and one more than the most of a word.
pub const MOST_SIZE: u8 = 16;

pub const WORD_LENGTHS: u8 = 16;

// A word, into a cell.
pub fn read_word(
    reader: &mut BitReader,
    form: TableForm,
    cells: &mut [u8],
    cell: usize,
) -> Result<(), FieldFault>
    requires { cell + cell_length ≤ length cells.old }
    ensures length { length cells.new ≡ length cells.old }
    ensures word { WordDone reader.old form.fields form.size cells.old cell cells.new result reader.new }
{
    let count = reader.take_number(form.fields.lengths, 0, WORD_LENGTHS)?;
    cells[cell] = count;
    for k in 0..count as usize {
        let number = reader.take_number(form.fields.letters, form.fields.low, form.size)?;
        cells[cell + 1 + k] = number + 1;
    }
    Ok(())
}

// What a pair begins with: the mark of an undefined one, or what stands before the words of any other.
#[derive(Clone, Copy)]
pub enum Head {
    Undefined,
    Words,
}

// A plain form has nothing before the words: the length of the first is read as the mark, and then again as a length.
pub fn read_head(reader: &mut BitReader, form: Form) -> Option<Head>
    requires { Narrow form }
    ensures { HeadDone reader.old form result reader.new }
{
    let begin = reader.twin();
    let value = reader.take(form.opens)?;
    if value == form.mark as u32 {
        return Some(Head::Undefined);
    }
    if form.heads == 0 {
        *reader = begin;
    }
    Some(Head::Words)
}

// A pair, into the cells of a, b and of b, a.
pub fn read_pair(
    reader: &mut BitReader,
    form: TableForm,
    cells: &mut [u8],
    a: u8,
    b: u8,
) -> Result<(), FieldFault>
    requires { Letters a b × (a < b) × (length cells.old ≡ cell_bytes) }
    ensures length { length cells.new ≡ length cells.old }
    ensures pair { PairDone reader.old form.fields form.size cells.old a b cells.new result reader.new }
{
    let there = cell_at(a, b);
    let back = cell_at(b, a);
    match read_head(reader, form.fields).ok_or(FieldFault::Ends)? {
        Head::Undefined => {
            cells[there] = UNDEFINED;
            cells[back] = UNDEFINED;
            Ok(())
        }
        Head::Words => {
            read_word(reader, form, cells, there)?;
            read_word(reader, form, cells, back)
        }
    }
}

// The pairs of a letter with those after it, into their cells.
pub fn read_row(
    reader: &mut BitReader,
    form: TableForm,
    cells: &mut [u8],
    a: u8,
) -> Result<(), FieldFault>
    requires { (1 ≤ a) × (a ≤ form.size) × (length cells.old ≡ cell_bytes) }
    ensures length { length cells.new ≡ length cells.old }
    ensures row { RowDone reader.old form.fields form.size cells.old a cells.new result reader.new }
{
    for b in a + 1..form.size + 1 {
        read_pair(reader, form, cells, a, b)?;
    }
    Ok(())
}

// The weights of the letters, each less 1, into their places.
pub fn read_weights(
    reader: &mut BitReader,
    form: TableForm,
    cells: &mut [u8],
) -> Result<(), FieldFault>
    requires { length cells.old ≡ cell_bytes }
    ensures length { length cells.new ≡ length cells.old }
    ensures weights { WeightsDone reader.old form.fields form.size cells.old cells.new result reader.new }
{
    for a in 1..form.size + 1 {
        let excess = reader.take_number(form.fields.weights, form.fields.low, MOST_WEIGHT)?;
        let place = weight_at(a);
        cells[place] = excess;
    }
    Ok(())
}

// The pairs of a table whose weights were read, into their cells, and the end.
pub fn read_rows(reader: &mut BitReader, form: TableForm, cells: &mut [u8]) -> Result<u8, Refusal>
    requires { (1 ≤ form.size) × Blank cells.old }
    ensures length { length cells.new ≡ length cells.old }
    ensures rows { RowsDone reader.old form.fields form.size cells.old cells.new result }
{
    for a in 1..form.size + 1 {
        read_row(reader, form, cells, a).map_err(FieldFault::table_refusal)?;
    }
    if reader.is_end() {
        Ok(form.size)
    } else {
        Err(Refusal::TableTail)
    }
}

// Refusal 1 or 2, whichever is come to first, then 3 (specification 5.3). After an answer the cells stand for the table.
pub fn read_form(input: &[u8], kind: Kind, cells: &mut [u8]) -> Result<u8, Refusal>
    requires { Blank cells.old }
    ensures length { length cells.new ≡ length cells.old }
    ensures table { LoadedAs (table_in kind input.now) cells.new result }
{
    let least = form_of(kind, 1);
    let mut reader = BitReader::at(input, 0);
    let number = reader
        .take_number(least.sizes, least.low, MOST_SIZE)
        .map_err(FieldFault::table_refusal)?;
    let size = number + 1;
    let form = TableForm {
        fields: form_of(kind, size),
        size,
    };
    read_weights(&mut reader, form, cells).map_err(FieldFault::table_refusal)?;
    read_rows(&mut reader, form, cells)
}

// A table image.
pub fn read_table(image: &[u8], cells: &mut [u8]) -> Result<u8, Refusal>
    requires { Blank cells.old }
    ensures length { length cells.new ≡ length cells.old }
    ensures table { TableDone image.now cells.new result }
{
    read_form(image, Kind::Image, cells)
}

// The number of letters of a table image, or its refusal.
pub fn table_size(image: &[u8]) -> Result<u8, Refusal>
    ensures { SizeDone image.now result }
{
    let mut cells = [0u8; CELLS];
    read_table(image, &mut cells)
}
