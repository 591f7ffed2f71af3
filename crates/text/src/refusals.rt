// The line of a refusal: its number and its place numbers.
ghost use Rattle.std.specs.Prelude.{◌≤◌, length};
ghost use Rattle.model.specs.Stated.{refusal};
ghost use Rattle.text.specs.Text.{outcome_text};
ghost use Rattle.text.specs.Put.{Put};

use crate::lines::put_numbers_line;
use model::answers::Refusal;
use numbering::refusals::refusal_numbers;

pub fn put_refusal(out: &mut [u8], refused: Refusal) -> usize
    requires { 32 ≤ length out.old }
    ensures { Put 32 out.old 0 (outcome_text (refusal refused)) out.new result }
{
    let numbers = refusal_numbers(refused);
    let all = [numbers.number, numbers.a, numbers.b, numbers.c];
    let count = numbers.count;
    put_numbers_line(out, 0, b"refused", &all[..count])
}
