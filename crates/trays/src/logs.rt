// A tray's bytes (specification 5.11): how many logs, then each behind its length.
ghost use Rattle.std.specs.Prelude.{◌≡◌, ◌+◌, ◌≤◌, length};
ghost use Rattle.trays.specs.Logs.{length_at, LogsDecided, TrayDone};

use model::answers::Refusal;

// The logs that a tray may have.
pub const MOST_LOGS: u8 = 64;

// The length of the log that stands at a place, from its two bytes, the high one first.
// Kept (4): (a) the edit length_of_255_a_high_byte is of this product, which `from_be_bytes` does not show.
pub fn log_length(tray: &[u8], at: usize) -> usize
    requires { at + 2 ≤ length tray.now }
    ensures { result ≡ length_at tray.now at }
{
    tray[at] as usize * 256 + tray[at + 1] as usize
}

// Whether so many logs fill the tray behind its first byte.
pub fn holds_logs(tray: &[u8], logs: u8) -> bool
    requires { 1 ≤ length tray.now }
    ensures { LogsDecided tray.now logs result }
{
    let mut at: usize = 1;
    for _ in 0..logs {
        if tray.len() - at < 2 {
            return false;
        }
        let start = at + 2;
        let bytes = log_length(tray, at);
        if tray.len() - start < bytes {
            return false;
        }
        at = start + bytes;
    }
    at == tray.len()
}

// How many logs a tray has. One of too many is told by its first byte, any other that ends early or goes on is none.
pub fn read_tray(tray: &[u8]) -> Result<u8, Refusal>
    ensures { TrayDone tray.now result }
{
    let [logs, ..] = *tray else {
        return Err(Refusal::NotTray);
    };
    if logs > MOST_LOGS {
        return Err(Refusal::TooManyLogs);
    }
    if holds_logs(tray, logs) {
        return Ok(logs);
    }
    Err(Refusal::NotTray)
}
