// Two programs of any signs, loaded and reversed: the first one's inverse, then the second.
ghost use Rattle.std.specs.Prelude.{◌≡◌, ◌+◌, length};
ghost use Rattle.loading.specs.Loading.{TwoAccepted, SignedRuns};
ghost use Rattle.signed_comparing.specs.Running.{LoadsSigned, SignedReverses};

use engine::gap::Gap;
use engine::run::reversing;
use engine::words::invert;
use images::programs::unpack_letters;
use loading::loading::Programs;
use model::answers::{Ending, Stop};

// The inverse of the first program, then the second, at the workspace's end, from `right` on: a site may begin in either.
pub fn load_signed(
    first: &[u8],
    second: &[u8],
    loaded: Programs,
    right: usize,
    workspace: &mut [u8],
)
    requires programs { TwoAccepted loaded.size first.now loaded.firsts second.now loaded.seconds }
    requires room { right + (loaded.firsts + loaded.seconds) ≡ length workspace.old }
    ensures { LoadsSigned loaded.size first.now second.now right workspace.old workspace.new }
{
    let left = loaded.firsts as usize;
    unpack_letters(first, loaded.size, loaded.firsts, workspace, right);
    invert(&mut workspace[right..right + left]);
    unpack_letters(second, loaded.size, loaded.seconds, workspace, right + left);
}

// Reverses the first program's inverse, then the second program.
pub fn reverse_signed(
    cells: &[u8],
    first: &[u8],
    second: &[u8],
    loaded: Programs,
    budget: u16,
    workspace: &mut [u8],
) -> Ending
    requires { SignedRuns cells.now loaded.size first.now loaded.firsts second.now loaded.seconds }
    ensures length { length workspace.new ≡ length workspace.old }
    ensures runs { SignedReverses cells.now loaded.size first.now second.now budget workspace.new result }
{
    let end = workspace.len();
    let letters = loaded.firsts as usize + loaded.seconds as usize;
    if end < letters {
        return Ending::Stopped(Stop::Room);
    }
    let right = end - letters;
    load_signed(first, second, loaded, right, workspace);
    reversing(cells, workspace, Gap { left: 0, right }, budget)
}
