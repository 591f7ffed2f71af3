// What reverse, commit and left_reverse make of an ending.
ghost use Rattle.std.specs.Prelude.{◌≡◌};
ghost use Rattle.model.specs.Services.{agree, committed_of, fraction_of};
ghost use Rattle.model.specs.Stated.{sizes_stated};
ghost use Rattle.engine.specs.Run.{Finishable};
ghost use Rattle.reversal.specs.Asked.{handed, backward_of, AnswerOf};
ghost use Rattle.reversal.specs.Endings.{SomeReverses};

use crate::asked::Handed;
use crate::backward::turn_words;
use crate::enquire::sizes_of;
use crate::fraction::write_fraction;
use model::answers::{Ending, Refusal, Reversed};

// What reverse makes of an ending, with the answer where it finished and fits.
pub fn answer_ending(
    ending: Ending,
    workspace: &[u8],
    answer: &mut [u8],
) -> Result<Reversed, Refusal>
    requires { Finishable workspace.now ending }
    ensures { AnswerOf fraction_of ending workspace.now answer.old answer.new result }
{
    let words = sizes_of(ending)?;
    let end = words.numerator + words.denominator;
    if answer.len() < end {
        return Err(Refusal::AnswerShort);
    }
    write_fraction(&workspace[..end], words.numerator, answer);
    Ok(words)
}

// Whether they are those of a reversing that finished.
// Kept (4): (a) the edits fewer_steps_accepted and denominator_not_compared are of these comparisons; a derived equality has no line for them.
pub fn agrees(numbers: Handed, words: Reversed) -> bool
    ensures { result ≡ agree (handed numbers) (sizes_stated words) }
{
    numbers.numerator == words.numerator as u64
        && numbers.denominator == words.denominator as u64
        && numbers.steps == words.steps as u64
}

// What commit makes of an ending, with the answer where the numbers are its own and it fits.
pub fn commit_ending(
    ending: Ending,
    numbers: Handed,
    workspace: &[u8],
    answer: &mut [u8],
) -> Result<Reversed, Refusal>
    requires { Finishable workspace.now ending }
    ensures { AnswerOf (committed_of (handed numbers)) ending workspace.now answer.old answer.new result }
{
    if !agrees(numbers, sizes_of(ending)?) {
        return Err(Refusal::OtherNumbers);
    }
    answer_ending(ending, workspace, answer)
}

// What left_reverse makes of the ending of a word read backward: reverse's answer, with both words read backward again.
pub fn answer_backward(
    ending: Ending,
    workspace: &[u8],
    answer: &mut [u8],
) -> Result<Reversed, Refusal>
    requires { SomeReverses workspace.now ending }
    ensures { AnswerOf backward_of ending workspace.now answer.old answer.new result }
{
    let words = answer_ending(ending, workspace, answer)?;
    let end = words.numerator + words.denominator;
    turn_words(&mut answer[..end], words.numerator);
    Ok(words)
}
