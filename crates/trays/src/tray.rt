// Tray (specification 6.19): the table is cleared once, then each log is compared by itself.
ghost use Rattle.std.specs.Prelude.{◌≡◌, ◌+◌, ◌*◌, ◌≤◌, length, replicate};
ghost use Rattle.model.specs.Stated.{tray_compared};
ghost use Rattle.loading.specs.Loading.{ForwardRuns};
ghost use Rattle.trays.specs.Logs.{length_at, LogsOf, TrayOf};
ghost use Rattle.trays.specs.Tray.{LogCompared, LogAnswered, LogsAnswered, TrayJudged, TrayStated};
ghost use Rattle.trays.specs.Meaning.{TrayPromise};

use crate::answers::{LOG_BYTES, write_answer};
use crate::logs::{log_length, read_tray};
use cells::layout::CELLS;
use clearing::clearing::clear_cells;
use comparing::compare::compare_cleared;
use images::programs::{Signs, read_as};
use loading::loading::{Programs, TableProgram, read_table_program};
use model::answers::{Compared, Refusal};

// One log against the pattern that was loaded, under a table that has cleared. The workspace is all zero before and after.
pub fn compare_log(
    cells: &[u8],
    log: &[u8],
    pattern: &[u8],
    loaded: TableProgram,
    budget: u16,
    workspace: &mut [u8],
) -> Result<Compared, Refusal>
    requires pattern { ForwardRuns cells.now loaded.size pattern.now loaded.count loaded.weight }
    requires zero { workspace.old ≡ replicate (length workspace.old) 0 }
    ensures { LogCompared cells.now loaded.size log.now pattern.now budget workspace.old
        workspace.new result }
{
    let read = read_as(log, cells, loaded.size, Signs::Forward)?;
    let both = Programs {
        size: loaded.size,
        firsts: read.count,
        seconds: loaded.count,
        first_weight: read.weight,
        second_weight: loaded.weight,
    };
    compare_cleared(cells, log, pattern, both, budget, workspace)
}

// The log that stands at a place of the tray, its answer at a place of the answer area. The result is where the log ends.
pub fn answer_log(
    cells: &[u8],
    tray: &[u8],
    at: usize,
    pattern: &[u8],
    loaded: TableProgram,
    budget: u16,
    workspace: &mut [u8],
    answer: &mut [u8],
    place: usize,
) -> usize
    requires pattern { ForwardRuns cells.now loaded.size pattern.now loaded.count loaded.weight }
    requires zero { workspace.old ≡ replicate (length workspace.old) 0 }
    requires log { at + 2 + length_at tray.now at ≤ length tray.now }
    requires room { place + 3 ≤ length answer.old }
    ensures { LogAnswered cells.now loaded.size tray.now at pattern.now budget workspace.old workspace.new
        answer.old answer.new place result }
{
    let start = at + 2;
    let end = start + log_length(tray, at);
    let outcome = compare_log(cells, &tray[start..end], pattern, loaded, budget, workspace);
    write_answer(answer, place, outcome);
    end
}

// Every log of a tray, in order.
pub fn answer_logs(
    cells: &[u8],
    tray: &[u8],
    logs: u8,
    pattern: &[u8],
    loaded: TableProgram,
    budget: u16,
    workspace: &mut [u8],
    answer: &mut [u8],
)
    requires pattern { ForwardRuns cells.now loaded.size pattern.now loaded.count loaded.weight }
    requires zero { workspace.old ≡ replicate (length workspace.old) 0 }
    requires logs { LogsOf tray.now logs }
    requires room { 3 * logs ≤ length answer.old }
    ensures { LogsAnswered cells.now loaded.size tray.now logs pattern.now budget workspace.old
        workspace.new answer.old answer.new }
{
    let mut at: usize = 1;
    for log in 0..logs as usize {
        let place = LOG_BYTES * log;
        at = answer_log(
            cells, tray, at, pattern, loaded, budget, workspace, answer, place,
        );
    }
}

// A tray and an accepted pattern under a table that was loaded. The answer area is measured after the clearing.
pub fn compare_tray(
    cells: &[u8],
    tray: &[u8],
    logs: u8,
    pattern: &[u8],
    loaded: TableProgram,
    budget: u16,
    workspace: &mut [u8],
    answer: &mut [u8],
) -> Result<u8, Refusal>
    requires pattern { ForwardRuns cells.now loaded.size pattern.now loaded.count loaded.weight }
    requires logs { LogsOf tray.now logs }
    ensures { TrayJudged cells.now loaded.size tray.now logs pattern.now budget workspace.old
        workspace.new answer.old answer.new result }
{
    clear_cells(cells, loaded.size, budget, workspace)?;
    if answer.len() < LOG_BYTES * logs as usize {
        return Err(Refusal::AnswerShort);
    }
    answer_logs(
        cells, tray, logs, pattern, loaded, budget, workspace, answer,
    );
    Ok(logs)
}

// A tray that was read.
pub fn tray_under(
    table: &[u8],
    tray: &[u8],
    logs: u8,
    pattern: &[u8],
    budget: u16,
    workspace: &mut [u8],
    answer: &mut [u8],
) -> Result<u8, Refusal>
    requires { TrayOf tray.now logs }
    ensures { TrayStated table.now tray.now pattern.now budget workspace.old workspace.new
        answer.old answer.new result }
{
    let mut cells = [0u8; CELLS];
    let loaded = read_table_program(table, pattern, Signs::Forward, &mut cells)?;
    compare_tray(
        &cells, tray, logs, pattern, loaded, budget, workspace, answer,
    )
}

pub fn tray(
    table: &[u8],
    tray: &[u8],
    pattern: &[u8],
    allowance: u16,
    workspace: &mut [u8],
    answer: &mut [u8],
) -> Result<u8, Refusal>
    ensures { TrayPromise table.now tray.now pattern.now allowance workspace.old workspace.new
        answer.old answer.new (tray_compared result) }
{
    let logs = read_tray(tray)?;
    tray_under(table, tray, logs, pattern, allowance, workspace, answer)
}
