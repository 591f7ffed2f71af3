// The report of a table image and a program image.
ghost use Rattle.text.specs.Render.{Areas, Readable, Reported};

use crate::lines::put_answer;
use crate::refusals::put_refusal;
use cells::layout::CELLS;
use images::programs::{Signs, unpack_letters};
use loading::loading::{TableProgram, read_table_program};
use reversal::reverse::reverse;

// Of an accepted program: reverses it, then unpacks it into the workspace, which is free again, to write its letters.
pub fn render_accepted(
    table: &[u8],
    program: &[u8],
    loaded: TableProgram,
    workspace: &mut [u8],
    answer: &mut [u8],
    out: &mut [u8],
) -> usize
    requires { Areas workspace.old answer.old out.old × Readable table.now program.now loaded.size loaded.count }
    ensures { Reported table.now program.now out.new result }
{
    match reverse(table, program, 65535, workspace, answer) {
        Err(refused) => put_refusal(out, refused),
        Ok(reversed) => {
            unpack_letters(program, loaded.size, loaded.count, workspace, 0);
            let letters = &workspace[..loaded.count as usize];
            let (numerator, behind) = answer.split_at(reversed.numerator);
            let denominator = &behind[..reversed.denominator];
            put_answer(
                out,
                loaded.size,
                letters,
                numerator,
                denominator,
                reversed.steps,
            )
        }
    }
}

pub fn render(
    table: &[u8],
    program: &[u8],
    workspace: &mut [u8],
    answer: &mut [u8],
    out: &mut [u8],
) -> usize
    requires { Areas workspace.old answer.old out.old }
    ensures { Reported table.now program.now out.new result }
{
    let mut cells = [0u8; CELLS];
    match read_table_program(table, program, Signs::Any, &mut cells) {
        Err(refused) => put_refusal(out, refused),
        Ok(loaded) => render_accepted(table, program, loaded, workspace, answer, out),
    }
}
