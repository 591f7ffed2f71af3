// Accepted programs laid into the workspace, one read forward or backward, or two of forward moves, and their reversing.
ghost use Rattle.std.specs.Prelude.{◌≡◌, ◌+◌, ◌≤◌, length};
ghost use Rattle.images.specs.Programs.{Accepted};
ghost use Rattle.loading.specs.Loading.{TwoForward, Forward, ProgramRuns};
ghost use Rattle.loading.specs.Reversing.{FacedAtEnd, Loads, ProgramReverses, ProgramsReverse};

use crate::loading::{Programs, TableProgram};
use engine::gap::Gap;
use engine::run::reversing;
use engine::words::invert;
use images::programs::unpack_letters;
use model::answers::{Ending, Stop};

// The letters of an accepted program at the workspace's end; read backward, the last one stands first, and each keeps its sign.
pub fn load_program(
    size: u8,
    program: &[u8],
    count: u16,
    backward: bool,
    workspace: &mut [u8],
    right: usize,
)
    requires { Accepted program.now size count × (right + count ≡ length workspace.old) }
    ensures { FacedAtEnd backward size program.now workspace.old right workspace.new }
{
    unpack_letters(program, size, count, workspace, right);
    if backward {
        workspace[right..].reverse();
    }
}

// Reverses an accepted program, forward or backward as it is loaded at the workspace's end.
pub fn reverse_image(
    cells: &[u8],
    program: &[u8],
    loaded: TableProgram,
    backward: bool,
    budget: u16,
    workspace: &mut [u8],
) -> Ending
    requires { ProgramRuns cells.now loaded.size program.now loaded.count }
    ensures length { length workspace.new ≡ length workspace.old }
    ensures runs { ProgramReverses backward cells.now loaded.size program.now budget workspace.new result }
{
    let end = workspace.len();
    let letters = loaded.count as usize;
    if end < letters {
        return Ending::Stopped(Stop::Room);
    }
    let right = end - letters;
    load_program(
        loaded.size,
        program,
        loaded.count,
        backward,
        workspace,
        right,
    );
    reversing(cells, workspace, Gap { left: 0, right }, budget)
}

// The inverse of the first program at the workspace's start, and the second at its end.
pub fn load_programs(first: &[u8], second: &[u8], loaded: Programs, workspace: &mut [u8])
    requires pair { TwoForward loaded.size first.now loaded.firsts second.now loaded.seconds }
    requires room { loaded.firsts + loaded.seconds ≤ length workspace.old }
    ensures { Loads loaded.size first.now loaded.firsts second.now loaded.seconds workspace.old workspace.new }
{
    let left = loaded.firsts as usize;
    let right = workspace.len() - loaded.seconds as usize;
    unpack_letters(first, loaded.size, loaded.firsts, workspace, 0);
    invert(&mut workspace[..left]);
    unpack_letters(second, loaded.size, loaded.seconds, workspace, right);
}

// Reverses the first program's inverse, then the second program.
pub fn reverse_images(
    cells: &[u8],
    first: &[u8],
    second: &[u8],
    loaded: Programs,
    budget: u16,
    workspace: &mut [u8],
) -> Ending
    requires { Forward cells.now loaded.size first.now loaded.firsts second.now loaded.seconds }
    ensures length { length workspace.new ≡ length workspace.old }
    ensures runs { ProgramsReverse cells.now loaded.size first.now second.now budget workspace.new result }
{
    let end = workspace.len();
    let left = loaded.firsts as usize;
    let count = loaded.seconds as usize;
    if end < left + count {
        return Ending::Stopped(Stop::Room);
    }
    let right = end - count;
    load_programs(first, second, loaded, workspace);
    reversing(cells, workspace, Gap { left, right }, budget)
}
