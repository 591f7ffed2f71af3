ghost use Rattle.std.specs.Prelude.{[], ◌∷◌, ◌≡◌, ◌+◌, ◌-◌, ◌≤◌, ◌<◌, length, get_or};
ghost use Rattle.model.specs.Word.{inverse};
ghost use Rattle.cells.specs.Layout.{Letters, cell_at};
ghost use Rattle.engine.specs.Turn.{CellFits, cell_letters, Pushed};
ghost use Rattle.chain_listing.specs.Course.{Somewhere, FacePassed, Emittable, Moves, Emits};

use cells::layout::cell_at;
use engine::step::push_inverse;
use entries::entry::{ChainEntry, read_entry, write_entry};
use model::plain::BACK;

// How far a listing has come. The bytes before `left` are the inverse of the first word's rest, those from `right` on the letters left of
// the second; `passed` letters stand before the rest in the word that the `emitted` entries have led to, and `stacked` faces are not done.
#[derive(Clone, Copy)]
pub struct Progress {
    pub left: usize,
    pub right: usize,
    pub passed: usize,
    pub emitted: usize,
    pub stacked: usize,
}

// The rest's first letter a meets the letter b that was taken off. Where they differ, their face waits for the letters of C(a,b).
pub fn meet(
    cells: &[u8],
    size: u8,
    total: usize,
    bytes: &[u8],
    at: Progress,
    b: u8,
    answer: &mut [u8],
) -> Progress
    requires { Somewhere cells.now size total (b ∷ []) bytes.now answer.old at }
    ensures { Moves cells.now size total (b ∷ []) bytes.now answer.old at bytes.now
        answer.new result }
{
    let left = at.left - 1;
    let a = bytes[left] - BACK;
    let passed = at.passed + 1;
    if a == b {
        return Progress { left, passed, ..at };
    }
    let to = cell_at(a, b);
    let offset = cells[to] as u16;
    let stacked = at.stacked + 1;
    write_entry(answer, size, total - stacked, ChainEntry { offset, a, b });
    Progress {
        left,
        passed,
        stacked,
        ..at
    }
}

// With no face to be done, the next letter is one of the second word, where one is left.
pub fn take_letter(
    cells: &[u8],
    size: u8,
    total: usize,
    bytes: &[u8],
    at: Progress,
    answer: &mut [u8],
) -> Progress
    requires somewhere { Somewhere cells.now size total [] bytes.now answer.old at }
    requires more { (at.stacked ≡ 0) × (at.right < length bytes.now) }
    ensures { Moves cells.now size total [] bytes.now answer.old at bytes.now answer.new result }
{
    let next = bytes[at.right];
    let taken = Progress {
        right: at.right + 1,
        ..at
    };
    meet(cells, size, total, bytes, taken, next, answer)
}

// Where the face of a and b begins, once all letters of C(a,b) behind a are passed.
pub fn face_start(cells: &[u8], passed: usize, a: u8, b: u8) -> usize
    requires { FacePassed cells.now passed a b }
    ensures { result ≡ passed - get_or cells.now (cell_at a b) 0 - 1 }
{
    let x = cells[cell_at(a, b)] as usize;
    passed - x - 1
}

// C(a,b) goes to the front of the rest, whose inverse ends at `left`; where that ends then.
pub fn extend_rest(cells: &[u8], bytes: &mut [u8], left: usize, a: u8, b: u8) -> usize
    requires { Letters a b × CellFits cells.now (cell_at a b) bytes.old (left + get_or cells.now (cell_at a b) 0) }
    ensures place { result ≡ left + get_or cells.now (cell_at a b) 0 }
    ensures pushed { Pushed (inverse (cell_letters cells.now (cell_at a b))) bytes.old result
        (get_or cells.now (cell_at a b) 0) bytes.new }
{
    let from = cell_at(a, b);
    let end = left + cells[from] as usize;
    push_inverse(bytes, end, cells, from);
    end
}

// The top face is done: its entry is written, and C(b,a) goes to the front of the rest.
pub fn emit(
    cells: &[u8],
    size: u8,
    bytes: &mut [u8],
    at: Progress,
    a: u8,
    b: u8,
    answer: &mut [u8],
) -> Progress
    requires { Emittable cells.now size bytes.old answer.old at a b }
    ensures length { length bytes.new ≡ length bytes.old }
    ensures emits { Emits cells.now size bytes.old answer.old at a b bytes.new answer.new result }
{
    let start = face_start(cells, at.passed, a, b);
    let offset = start as u16;
    let entry = ChainEntry { offset, a, b };
    write_entry(answer, size, at.emitted, entry);
    let left = extend_rest(cells, bytes, at.left, b, a);
    Progress {
        left,
        passed: start + 1,
        emitted: at.emitted + 1,
        stacked: at.stacked - 1,
        ..at
    }
}

// The next letter is one of the top face's, where one is left; else the face is done.
pub fn turn(
    cells: &[u8],
    size: u8,
    total: usize,
    bytes: &mut [u8],
    at: Progress,
    answer: &mut [u8],
) -> Progress
    requires somewhere { Somewhere cells.now size total [] bytes.old answer.old at }
    requires stacked { 1 ≤ at.stacked }
    ensures length { length bytes.new ≡ length bytes.old }
    ensures moves { Moves cells.now size total [] bytes.old answer.old at bytes.new answer.new result }
{
    let index = total - at.stacked;
    let face = read_entry(answer, size, index);
    let count = face.offset;
    let a = face.a;
    let b = face.b;
    if count == 0 {
        return emit(cells, size, bytes, at, a, b, answer);
    }
    let to = cell_at(a, b);
    let x = cells[to] as usize;
    let next = cells[to + 1 + x - (count as usize)];
    write_entry(
        answer,
        size,
        index,
        ChainEntry {
            offset: count - 1,
            a,
            b,
        },
    );
    meet(cells, size, total, bytes, at, next, answer)
}
