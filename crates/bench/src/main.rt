// Runs two cases of specification 10 that Sheet.antt of the model has not, one line for each: case 2, allowance 5; and that case 14 stops.
#![tactic(auto)]

ghost use Rattle.std.specs.Prelude.{◌≡◌, length};

use clearing::clear::clear;
use model::answers::Refusal;
use reversal::reverse::reverse;
use std::io;

// Whether a refusal is 11 or 12.
fn is_stop(refusal: Refusal) -> bool {
    matches!(
        refusal,
        Refusal::AllowanceUsed(_) | Refusal::WorkspaceShort(_)
    )
}

// Table E, C(a,b) = b a throughout: whether clearing stops.
fn endless_stops(allowance: u16, workspace: &mut [u8]) -> bool
    ensures { length workspace.new ≡ length workspace.old }
{
    clear(b"\x20\x04\x90\x86\x50\x45\x29\x26", allowance, workspace).is_err_and(is_stop)
}

// At every allowance, from 0 to 65,535.
fn endless_always_stops(workspace: &mut [u8]) -> bool {
    (0..=u16::MAX).all(|allowance| endless_stops(allowance, workspace))
}

// The program of case 1 at allowance 5.
fn five_finish(workspace: &mut [u8], answer: &mut [u8]) -> bool {
    let reversed = reverse(
        b"\x20\x04\x90\x86\x30\x92\x92\x60",
        b"\x00\x5C\x28\x20",
        5,
        workspace,
        answer,
    );
    reversed.is_ok_and(|told| told.numerator == 4 && told.denominator == 3 && told.steps == 5)
}

fn tell(rt: &impl Print, passed: bool) -> io::Result<()> {
    if passed {
        println!(rt; ": holds")
    } else {
        println!(rt; ": FAILS")
    }
}

fn main(rt: HostRuntime) -> io::Result<()> {
    let mut workspace = [0u8; 32768];
    let mut answer = [0u8; 32768];
    print!(rt; "allowance 5 finishes the first program")?;
    tell(&rt, five_finish(&mut workspace, &mut answer))?;
    print!(rt; "clearing the endless table stops at every allowance")?;
    tell(&rt, endless_always_stops(&mut workspace))
}
