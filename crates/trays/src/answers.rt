// What is told of a log (specification 6.19): three bytes in the answer area.
ghost use Rattle.std.specs.Prelude.{◌≡◌, [], ◌∷◌, ◌+◌, ◌/◌, ◌%◌, ◌≤◌, length};
ghost use Rattle.model.specs.Areas.{written};
ghost use Rattle.model.specs.Stated.{compared};
ghost use Rattle.model.specs.Tray.{log_bytes};

use model::answers::{Compared, Refusal};
use numbering::refusals::refusal_numbers;

// The bytes of a log's answer.
pub const LOG_BYTES: usize = 3;

// A byte, then the steps in two, the high one first.
pub fn write_three(answer: &mut [u8], at: usize, first: u8, steps: u16)
    requires { at + 3 ≤ length answer.old }
    ensures { answer.new ≡ written answer.old at (first ∷ steps / 256 ∷ steps % 256 ∷ []) }
{
    let [high, low] = steps.to_be_bytes();
    answer[at] = first;
    answer[at + 1] = high;
    answer[at + 2] = low;
}

pub fn write_answer(answer: &mut [u8], at: usize, outcome: Result<Compared, Refusal>)
    requires { at + 3 ≤ length answer.old }
    ensures { answer.new ≡ written answer.old at (log_bytes (compared outcome)) }
{
    match outcome {
        Ok(
            Compared::Same {
                steps,
                relations: _,
            },
        ) => write_three(answer, at, 0, steps),
        Ok(Compared::Different { steps }) => write_three(answer, at, 1, steps),
        Err(refusal) => {
            let numbers = refusal_numbers(refusal);
            write_three(answer, at, numbers.number, 0)
        }
    }
}
