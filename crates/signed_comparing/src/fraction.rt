// N and D, which the first reversing left, compared as forward programs.
ghost use Rattle.std.specs.Prelude.{◌≡◌, length};
ghost use Rattle.signed_comparing.specs.Fraction.{Leaves, FractionCompared};

use crate::weight::same_weight;
use comparing::compare::judge;
use engine::words::{invert, move_to_end};
use model::answers::{Compared, Refusal};
use sets::room::reverse_pair;

// N stands at the workspace's start, and behind it D's inverse, which is inverted first.
// Kept (6): (d) the second reversing takes the whole workspace, of which the two words are the beginning: slices of these would have to be joined again.
pub fn compare_fraction(
    cells: &[u8],
    numerator: usize,
    denominator: usize,
    budget: u16,
    workspace: &mut [u8],
) -> Result<Compared, Refusal>
    requires { Leaves cells.now workspace.old numerator denominator }
    ensures length { length workspace.new ≡ length workspace.old }
    ensures compares { FractionCompared cells.now workspace.old numerator denominator budget result }
{
    invert(&mut workspace[numerator..numerator + denominator]);
    if !same_weight(cells, workspace, numerator, numerator + denominator) {
        return Ok(Compared::Different { steps: 0 });
    }
    move_to_end(workspace, numerator, denominator);
    let ending = reverse_pair(cells, workspace, numerator, denominator, budget);
    judge(ending)
}
