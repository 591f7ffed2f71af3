ghost use Rattle.std.specs.Prelude.{◌≡◌, [], ◌∷◌, length, get_or};
ghost use Rattle.model.specs.Word.{positive};
ghost use Rattle.cells.specs.Stands.{Ready};
ghost use Rattle.cells.specs.Layout.{cell_at};
ghost use Rattle.table_checks.specs.Residuals.{from_ending, letters_of, LettersMean, WordsWork, SideWorks};

use cells::layout::{UNDEFINED_LENGTH, cell_at};
use engine::gap::Gap;
use engine::run::reversing;
use engine::step::{push_inverse, push_word};
use model::answers::{Ending, Stop, Triple};

// u\v: the length of the word, which stands at the workspace's start; none where an undefined pair was met; or why the reversing was stopped.
pub fn residual_of(ending: Ending) -> Result<Option<usize>, Stop>
    ensures { result ≡ from_ending ending }
{
    match ending {
        Ending::Finished { numerator, .. } => Ok(Some(numerator)),
        Ending::Undefined { .. } => Ok(None),
        Ending::Stopped(stop) => Err(stop),
    }
}

// a\b in `room` bytes, read off the cells of the pair. Its reversing has one step, from the inverse of a, then b, to C(a,b), then the inverse of C(b,a).
pub fn letter_residual(
    cells: &[u8],
    room: usize,
    a: u8,
    b: u8,
    budget: u16,
) -> Result<Option<usize>, Stop>
    requires { Ready cells.now (positive (a ∷ b ∷ [])) }
    ensures { LettersMean cells.now room a b budget result }
{
    if room < 2 {
        return Err(Stop::Room);
    }
    let x = cells[cell_at(a, b)] as usize;
    let y = cells[cell_at(b, a)] as usize;
    if x == UNDEFINED_LENGTH {
        return Ok(None);
    }
    if budget == 0 {
        return Err(Stop::Budget);
    }
    if room < x + y {
        return Err(Stop::Room);
    }
    Ok(Some(x))
}

// C(a,b)\C(a,c), for pairs that are not undefined.
pub fn word_residual(
    cells: &[u8],
    bytes: &mut [u8],
    triple: Triple,
    budget: u16,
) -> Result<Option<usize>, Stop>
    requires ready { Ready cells.now (letters_of triple) }
    requires defined { (get_or cells.now (cell_at triple.a triple.b) 0 ≡ 255 → ⊥) × (get_or cells.now (cell_at triple.a triple.c) 0 ≡ 255 → ⊥) }
    ensures length { length bytes.new ≡ length bytes.old }
    ensures works { WordsWork cells.now triple budget bytes.new result }
{
    let to_b = cell_at(triple.a, triple.b);
    let to_c = cell_at(triple.a, triple.c);
    let left = cells[to_b] as usize;
    let end = bytes.len();
    if end < left + cells[to_c] as usize {
        return Err(Stop::Room);
    }
    push_inverse(bytes, left, cells, to_b);
    let right = push_word(bytes, end, cells, to_c);
    residual_of(reversing(cells, bytes, Gap { left, right }, budget))
}

// (a\b)\(a\c), the inner residuals first.
pub fn side(
    cells: &[u8],
    bytes: &mut [u8],
    triple: Triple,
    budget: u16,
) -> Result<Option<usize>, Stop>
    requires { Ready cells.now (letters_of triple) }
    ensures length { length bytes.new ≡ length bytes.old }
    ensures works { SideWorks cells.now triple budget bytes.new result }
{
    let room = bytes.len();
    if letter_residual(cells, room, triple.a, triple.b, budget)?.is_none() {
        return Ok(None);
    }
    if letter_residual(cells, room, triple.a, triple.c, budget)?.is_none() {
        return Ok(None);
    }
    word_residual(cells, bytes, triple, budget)
}
