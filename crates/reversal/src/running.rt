// A table and a program that are read, and the program's reversing under the table or its mirror. A refusal comes before the work.
ghost use Rattle.std.specs.Prelude.{◌≡◌, length};
ghost use Rattle.reversal.specs.Running.{RunDone, MirrorRunDone};

use cells::layout::{CELLS, UNDEFINED};
use images::programs::Signs;
use loading::loading::read_table_program;
use loading::reversing::reverse_image;
use mirrors::mirror::mirror_table;
use model::answers::{Ending, Refusal};

// How the reversing of the program in the image ended.
pub(crate) fn run_images(
    table: &[u8],
    program: &[u8],
    allowance: u16,
    workspace: &mut [u8],
) -> Result<Ending, Refusal>
    ensures length { length workspace.new ≡ length workspace.old }
    ensures run { RunDone table.now program.now allowance workspace.old workspace.new result }
{
    let mut cells = [0u8; CELLS];
    let loaded = read_table_program(table, program, Signs::Any, &mut cells)?;
    Ok(reverse_image(&cells, program, loaded, false, allowance, workspace))
}

// How the reversing of the program, read backward, ended under the table's mirror, which is made once.
pub(crate) fn run_mirrored(
    table: &[u8],
    program: &[u8],
    allowance: u16,
    workspace: &mut [u8],
) -> Result<Ending, Refusal>
    ensures length { length workspace.new ≡ length workspace.old }
    ensures run { MirrorRunDone table.now program.now allowance workspace.old workspace.new result }
{
    let mut cells = [0u8; CELLS];
    let loaded = read_table_program(table, program, Signs::Any, &mut cells)?;
    let mut mirror = [UNDEFINED; CELLS];
    mirror_table(&cells, loaded.size, &mut mirror).map_err(Refusal::NoMirror)?;
    Ok(reverse_image(&mirror, program, loaded, true, allowance, workspace))
}
