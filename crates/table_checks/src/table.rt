ghost use Rattle.std.specs.Prelude.{◌≡◌, ◌≤◌, ◌<◌, length};
ghost use Rattle.model.specs.Range.{InRange};
ghost use Rattle.cells.specs.Stands.{Sized, Ready};
ghost use Rattle.table_checks.specs.Residuals.{letters_of};
ghost use Rattle.table_checks.specs.Table.{Related, SideWeighs, PairMeans, RowMeans, WeightsMean, TripleMeans, TriplesMean};

use crate::cube::cube_at;
use cells::layout::{UNDEFINED, cell_at};
use cells::weights::letter_weight;
use model::answers::{Pair, Stop, Triple};

// A triple where the cube rule fails, or where a reversing was stopped.
#[derive(Clone, Copy)]
pub enum TripleFault {
    Fails(Triple),
    Halts(Stop, Triple),
}

// The weight of the side of a relation that begins with a: a followed by C(a,b).
pub fn side_weight(cells: &[u8], size: u8, a: u8, b: u8) -> u16
    requires table { Sized cells.now size }
    requires pair { Related cells.now size a b }
    ensures { SideWeighs cells.now size a b result }
{
    let cell = cell_at(a, b);
    let count = cells[cell] as usize;
    let mut weight = letter_weight(cells, a);
    for x in &cells[cell + 1..cell + 1 + count] {
        weight += letter_weight(cells, *x);
    }
    weight
}

// Whether the two sides of a pair's relation weigh the same; an open pair has none.
pub fn sides_balanced(cells: &[u8], size: u8, a: u8, b: u8) -> bool
    requires { Sized cells.now size × InRange size a × InRange size b }
    ensures { PairMeans cells.now size a b result }
{
    if cells[cell_at(a, b)] == UNDEFINED {
        return true;
    }
    side_weight(cells, size, a, b) == side_weight(cells, size, b, a)
}

// The pairs of one letter with those after it; the error is the first whose sides do not weigh the same.
pub fn row_weights(cells: &[u8], size: u8, a: u8) -> Result<(), Pair>
    requires { Sized cells.now size × (1 ≤ a) × (a ≤ size) }
    ensures { RowMeans cells.now size a result }
{
    for b in a + 1..=size {
        if !sides_balanced(cells, size, a, b) {
            return Err(Pair { a, b });
        }
    }
    Ok(())
}

// The weight check: the error is the first pair whose sides do not weigh the same.
pub fn check_weights(cells: &[u8], size: u8) -> Result<(), Pair>
    requires { Sized cells.now size }
    ensures { WeightsMean cells.now size result }
{
    for first in 1..=size {
        row_weights(cells, size, first)?;
    }
    Ok(())
}

// The triple of a pair and a letter; where c is a letter of the pair, there is none.
pub fn check_triple(
    cells: &[u8],
    bytes: &mut [u8],
    triple: Triple,
    budget: u16,
) -> Result<(), TripleFault>
    requires { Ready cells.now (letters_of triple) × (triple.a < triple.b) }
    ensures length { length bytes.new ≡ length bytes.old }
    ensures triple { TripleMeans cells.now (length bytes.old) triple budget result }
{
    if triple.c == triple.a || triple.c == triple.b {
        return Ok(());
    }
    match cube_at(cells, bytes, triple, budget) {
        Ok(true) => Ok(()),
        Ok(false) => Err(TripleFault::Fails(triple)),
        Err(stop) => Err(TripleFault::Halts(stop, triple)),
    }
}

// The cube check: the first triple that fails, or at which a reversing is stopped, ends the search.
pub fn check_triples(
    cells: &[u8],
    size: u8,
    bytes: &mut [u8],
    budget: u16,
) -> Result<(), TripleFault>
    requires { Sized cells.now size }
    ensures length { length bytes.new ≡ length bytes.old }
    ensures triples { TriplesMean cells.now size (length bytes.old) budget result }
{
    for a in 1..=size {
        for b in a + 1..=size {
            for c in 1..=size {
                check_triple(cells, bytes, Triple { a, b, c }, budget)?;
            }
        }
    }
    Ok(())
}
