ghost use Rattle.std.specs.Prelude.{◌≡◌, ◌<◌, length};
ghost use Rattle.model.specs.Word.{forwards};
ghost use Rattle.engine.specs.Gap.{letters, word_at, Searched};
ghost use Rattle.cells.specs.Stands.{Ready};
ghost use Rattle.model.specs.Reversing.{count};
ghost use Rattle.engine.specs.Run.{finished_at, RunMeans};

use crate::gap::Gap;
use crate::step::{Turn, advance};
use model::answers::{Ending, Pair};
use model::plain::BACK;

// How many letters of a word are forward.
pub fn forward_letters(word: &[u8]) -> usize
    ensures { result ≡ length (forwards (letters word.now)) }
{
    word.iter().filter(|x| **x < BACK).count()
}

// The ending of a word without a site.
pub fn finished(word: &[u8], steps: u16, relations: u16) -> Ending
    ensures { result ≡ finished_at word.now (length word.now) steps relations }
{
    let numerator = forward_letters(word);
    Ending::Finished {
        numerator,
        denominator: word.len() - numerator,
        steps,
        relations,
    }
}

// The steps on two different letters, with one step more.
pub fn counted(relations: u16, pair: Pair) -> u16
    requires { relations < 65535 }
    ensures { result ≡ count pair.a pair.b relations }
{
    if pair.a == pair.b {
        relations
    } else {
        relations + 1
    }
}

// Reverses the word in the workspace until it ends. Where it finishes, the numerator and then the inverse of the denominator stand at the
// workspace's start.
pub fn reversing(cells: &[u8], bytes: &mut [u8], start: Gap, budget: u16) -> Ending
    requires searched { Searched bytes.old start.left start.right }
    requires ready { Ready cells.now (word_at bytes.old start.left start.right) }
    ensures length { length bytes.new ≡ length bytes.old }
    ensures run { RunMeans cells.now (word_at bytes.old start.left start.right) budget bytes.new result }
{
    let mut gap = start;
    let mut steps: u16 = 0;
    let mut relations: u16 = 0;
    loop {
        let turn = advance(cells, bytes, gap, budget - steps);
        match turn {
            Turn::Final(end) => {
                return finished(&bytes[..end.left], steps, relations);
            }
            Turn::Undefined(pair) => {
                return Ending::Undefined { pair, steps };
            }
            Turn::Stopped(stop) => {
                return Ending::Stopped(stop);
            }
            Turn::Stepped { gap: next, pair } => {
                gap = next;
                steps += 1;
                relations = counted(relations, pair);
            }
        }
    }
}
