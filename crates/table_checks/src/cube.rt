ghost use Rattle.std.specs.Prelude.{◌≡◌, ◌≤◌, length, Some, Ok};
ghost use Rattle.cells.specs.Stands.{Ready};
ghost use Rattle.table_checks.specs.Residuals.{letters_of, SideWorks};
ghost use Rattle.table_checks.specs.Cube.{verdict_of, Ends, AgreeMeans, RightSide, AgainstMeans, CubeMeans};

use crate::residuals::side;
use cells::layout::{UNDEFINED, cell_at};
use engine::gap::Gap;
use engine::run::reversing;
use engine::words::{invert, move_to_end};
use model::answers::{Ending, Stop, Triple};

// Whether a reversing ended empty, or why it was stopped. Where it is that of both sides of a triple, the rule holds there if it did.
pub fn verdict_of(ending: Ending) -> Result<bool, Stop>
    ensures { result ≡ verdict_of ending }
{
    match ending {
        Ending::Finished {
            numerator,
            denominator,
            ..
        } => Ok(numerator == 0 && denominator == 0),
        Ending::Undefined { .. } => Ok(false),
        Ending::Stopped(stop) => Err(stop),
    }
}

// Whether the inverse of L, with R behind it, ends empty; L stands at the workspace's start and R after it.
pub fn agree(
    cells: &[u8],
    bytes: &mut [u8],
    left: usize,
    right: usize,
    budget: u16,
) -> Result<bool, Stop>
    requires { Ends cells.now bytes.old left right }
    ensures length { length bytes.new ≡ length bytes.old }
    ensures agree { AgreeMeans cells.now bytes.old left right budget result }
{
    invert(&mut bytes[..left]);
    move_to_end(bytes, left, right);
    let right = bytes.len() - right;
    verdict_of(reversing(cells, bytes, Gap { left, right }, budget))
}

// (a\b)\(a\c), worked out after the first `kept` bytes of the workspace, which stay. For R the caller exchanges a and b.
pub fn right_side(
    cells: &[u8],
    bytes: &mut [u8],
    kept: usize,
    triple: Triple,
    budget: u16,
) -> Result<Option<usize>, Stop>
    requires ready { Ready cells.now (letters_of triple) }
    requires kept { kept ≤ length bytes.old }
    ensures { RightSide cells.now bytes.old kept triple budget bytes.new result }
{
    side(cells, &mut bytes[kept..], triple, budget)
}

// The verdict where L is the word that stands at the workspace's start: R is worked out behind it.
pub fn against_word(
    cells: &[u8],
    bytes: &mut [u8],
    kept: usize,
    triple: Triple,
    budget: u16,
) -> Result<bool, Stop>
    requires ready { Ready cells.now (letters_of triple) }
    requires left { SideWorks cells.now triple budget bytes.old (Ok (Some kept)) }
    ensures length { length bytes.new ≡ length bytes.old }
    ensures against { AgainstMeans cells.now (length bytes.old) triple budget result }
{
    let other = Triple {
        a: triple.b,
        b: triple.a,
        ..triple
    };
    let Some(count) = right_side(cells, bytes, kept, other, budget)? else {
        return Ok(false);
    };
    agree(cells, bytes, kept, count, budget)
}

// The verdict once L is known; where it is undefined, R has to be.
pub fn against(
    cells: &[u8],
    bytes: &mut [u8],
    left: Option<usize>,
    triple: Triple,
    budget: u16,
) -> Result<bool, Stop>
    requires ready { Ready cells.now (letters_of triple) }
    requires left { SideWorks cells.now triple budget bytes.old (Ok left) }
    ensures length { length bytes.new ≡ length bytes.old }
    ensures against { AgainstMeans cells.now (length bytes.old) triple budget result }
{
    let Some(kept) = left else {
        let other = Triple {
            a: triple.b,
            b: triple.a,
            ..triple
        };
        return Ok(side(cells, bytes, other, budget)?.is_none());
    };
    against_word(cells, bytes, kept, triple, budget)
}

// One triple of the cube check (specification 4.4).
pub fn cube_at(cells: &[u8], bytes: &mut [u8], triple: Triple, budget: u16) -> Result<bool, Stop>
    requires { Ready cells.now (letters_of triple) }
    ensures length { length bytes.new ≡ length bytes.old }
    ensures cube { CubeMeans cells.now (length bytes.old) triple budget result }
{
    if cells[cell_at(triple.a, triple.b)] == UNDEFINED {
        return Ok(true);
    }
    let left = side(cells, bytes, triple, budget)?;
    against(cells, bytes, left, triple, budget)
}
