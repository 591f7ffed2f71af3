ghost use Rattle.std.specs.Prelude.{◌≡◌, length, replicate};
ghost use Rattle.model.specs.Range.{InRange};
ghost use Rattle.cells.specs.Layout.{cell_bytes};
ghost use Rattle.cells.specs.Stands.{undefined_length, Sized, Filled};
ghost use Rattle.mirrors.specs.Mirror.{PairDone, RowDone, RowsDone, WeightsCopied, MirrorDone};

use crate::sides::{last_letter, put_backward};
use cells::layout::{UNDEFINED, cell_at, weight_at};
use model::answers::Pair;

// Enters the relation of a pair; false where it offends: its sides end in one letter, or in those of a relation entered before it.
pub fn mirror_pair(cells: &[u8], a: u8, b: u8, mirror: &mut [u8]) -> bool
    requires table { Filled cells.now a b }
    requires full { length mirror.old ≡ cell_bytes }
    ensures length { length mirror.new ≡ length mirror.old }
    ensures pair { PairDone cells.now a b mirror.old mirror.new result }
{
    let there = cell_at(a, b);
    let back = cell_at(b, a);
    if cells[there] == UNDEFINED {
        return true;
    }
    let p = last_letter(cells, a, there);
    let q = last_letter(cells, b, back);
    if p == q {
        return false;
    }
    let to = cell_at(p, q);
    if mirror[to] != UNDEFINED {
        return false;
    }
    put_backward(cells, a, there, mirror, to);
    put_backward(cells, b, back, mirror, cell_at(q, p));
    true
}

// The pairs of one letter with those after it; an error is the first whose relation offends.
pub fn mirror_row(cells: &[u8], size: u8, a: u8, mirror: &mut [u8]) -> Result<(), Pair>
    requires table { Sized cells.now size × InRange size a }
    requires full { length mirror.old ≡ cell_bytes }
    ensures length { length mirror.new ≡ length mirror.old }
    ensures row { RowDone cells.now size a mirror.old mirror.new result }
{
    for b in a + 1..=size {
        if !mirror_pair(cells, a, b, mirror) {
            return Err(Pair { a, b });
        }
    }
    Ok(())
}

// All pairs; an error is the first whose relation offends.
pub fn mirror_rows(cells: &[u8], size: u8, mirror: &mut [u8]) -> Result<(), Pair>
    requires table { Sized cells.now size }
    requires full { length mirror.old ≡ cell_bytes }
    ensures length { length mirror.new ≡ length mirror.old }
    ensures rows { RowsDone cells.now size mirror.old mirror.new result }
{
    for a in 1..=size {
        mirror_row(cells, size, a, mirror)?;
    }
    Ok(())
}

// The weights, and the empty completions of letters with themselves.
pub fn copy_weights(cells: &[u8], size: u8, mirror: &mut [u8])
    requires table { Sized cells.now size }
    requires full { length mirror.old ≡ cell_bytes }
    ensures { WeightsCopied cells.now size mirror.old mirror.new }
{
    for a in 1..=size {
        let cell = cell_at(a, a);
        mirror[cell] = 0;
        let place = weight_at(a);
        mirror[place] = cells[place];
    }
}

// The mirror of the table, in cells where every pair is open; an error is the first pair whose relation offends.
pub fn mirror_table(cells: &[u8], size: u8, mirror: &mut [u8]) -> Result<(), Pair>
    requires table { Sized cells.now size }
    requires blank { mirror.old ≡ replicate cell_bytes undefined_length }
    ensures length { length mirror.new ≡ length mirror.old }
    ensures mirror { MirrorDone cells.now size mirror.new result }
{
    copy_weights(cells, size, mirror);
    mirror_rows(cells, size, mirror)
}
