// The bench reader (specification 9): what a table image and a program image come to.
#![tactic(auto)]

mod files;

use crate::files::read_named;
use std::io;
use std::io::Write;

// Says on standard error that the report was not written whole, and the system's reason without the error's number, which std puts behind it in brackets.
fn tell(rt: &impl Eprint, error: io::Error) -> io::Result<()> {
    let mut text = [0u8; 512];
    let mut room: &mut [u8] = &mut text;
    write!(room, "{error}")?;
    let told = str::from_utf8(&text).unwrap_or("");
    let reason = match told.split_once(" (os error ") {
        Some((words, _)) => words,
        None => told.trim_end_matches('\0'),
    };
    eprintln!(rt; "the report was not written whole: {reason}")
}

fn main(rt: HostRuntime) {
    let mut table = [0u8; 4096];
    let mut program = [0u8; 4096];
    let mut workspace = [0u8; 32768];
    let mut answer = [0u8; 32768];
    let mut out = [0u8; 262144];
    let table_bytes = read_named(&rt, 1, &mut table);
    let program_bytes = read_named(&rt, 2, &mut program);
    let written = text::render::render(
        &table[..table_bytes],
        &program[..program_bytes],
        &mut workspace,
        &mut answer,
        &mut out,
    );
    // The exit status is 0 in any case, so a report that was not written whole shows on standard error, and nothing is left to do where that fails, too.
    if let Err(error) = rt.write_all(&out[..written]) {
        let _ = tell(&rt, error);
    }
}
