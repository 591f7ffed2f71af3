// One function for C for each service. An area is a pointer and a length; no two may overlap.
ghost use Rattle.std.specs.Prelude.{length};
ghost use Rattle.model.specs.Images.{read_table};
ghost use Rattle.model.specs.Plain.{read_plain_table};
ghost use Rattle.model.specs.Services.{reverse, enquire, commit, clear, compare, chain, remainder, check, pack_table};
ghost use Rattle.model.specs.Services.{unpack_table, pack_program, unpack_program, program_under, plain_program_under};
ghost use Rattle.model.specs.Bed.{bed};
ghost use Rattle.model.specs.Ways.{ways};
ghost use Rattle.model.specs.Notation.{import};
ghost use Rattle.model.specs.Tray.{tray};
ghost use Rattle.packing.specs.RoundTrips.{PackPromise};
ghost use Rattle.braid.specs.Told.{sizes_told, passed_told, verdict_told, signed_told, chain_told, remainder_told, passage_told, bytes_told, counts_told};
ghost use Rattle.braid.specs.Told.{logs_told};
ghost use Rattle.braid.specs.Values.{Tells};
ghost use Rattle.braid.specs.Meant.{Meant};
ghost use Rattle.bed.specs.Meaning.{BedPromise};
ghost use Rattle.ways.specs.Service.{WaysPromise};
ghost use Rattle.importing.specs.Import.{ImportPromise};
ghost use Rattle.trays.specs.Meaning.{TrayPromise};
ghost use Rattle.reversal.specs.Enquire.{EnquirePromise};
ghost use Rattle.reversal.specs.Reverse.{ReversePromise};
ghost use Rattle.reversal.specs.Commit.{CommitPromise};
ghost use Rattle.reversal.specs.LeftReverse.{LeftPromise};
ghost use Rattle.comparing.specs.Compare.{ComparePromise};
ghost use Rattle.chaining.specs.Chain.{ChainPromise};
ghost use Rattle.chain_check.specs.Check.{CheckPromise};
ghost use Rattle.remainders.specs.Remainder.{RemainderPromise};
ghost use Rattle.signed_comparing.specs.Service.{SignedPromise};
ghost use Rattle.clearing.specs.Clear.{ClearPromise};
ghost use Rattle.clearing.specs.MirrorClear.{MirrorPromise};

use crate::numbers::{
    Numbers, of_chained, of_checked, of_cleared, of_compared, of_compared_signed, of_packed,
    of_remaining, of_reversed, of_tray_compared, of_ways,
};
use bed::bed::bed;
use chain_check::check::check;
use chaining::chain::chain;
use clearing::clear::clear;
use clearing::mirror_clear::mirror_clear;
use comparing::compare::compare;
use importing::import::import;
use packing::{pack_program, pack_table, unpack_program, unpack_table};
use remainders::remainder::remainder;
use reversal::asked::Handed;
use reversal::commit::commit;
use reversal::enquire::enquire;
use reversal::left_reverse::left_reverse;
use reversal::reverse::reverse;
use signed_comparing::compare_signed::compare_signed;
use trays::tray::tray;
use ways::ways::ways;

// Sets all four values and gives the result.
pub(crate) fn tell(numbers: Numbers, values: &mut [u64; 4]) -> u8
    ensures { Tells numbers result values.new }
{
    *values = [numbers.first, numbers.second, numbers.third, numbers.fourth];
    numbers.code
}

#[unsafe(no_mangle)]
pub extern "C" fn braid_reverse(
    table: &[u8],
    program: &[u8],
    allowance: u16,
    workspace: &mut [u8],
    answer: &mut [u8],
    values: &mut [u64; 4],
) -> u8
    ensures { Meant sizes_told
        (ReversePromise table.now program.now allowance workspace.old workspace.new answer.old
        answer.new) result values.new }
{
    let reversed = reverse(table, program, allowance, workspace, answer);
    tell(of_reversed(reversed), values)
}

#[unsafe(no_mangle)]
pub extern "C" fn braid_enquire(
    table: &[u8],
    program: &[u8],
    allowance: u16,
    workspace: &mut [u8],
    values: &mut [u64; 4],
) -> u8
    ensures { Meant sizes_told (EnquirePromise table.now program.now allowance workspace.old workspace.new) result
        values.new }
{
    let reversed = enquire(table, program, allowance, workspace);
    tell(of_reversed(reversed), values)
}

#[unsafe(no_mangle)]
pub extern "C" fn braid_commit(
    table: &[u8],
    program: &[u8],
    allowance: u16,
    numerator: u64,
    denominator: u64,
    steps: u64,
    workspace: &mut [u8],
    answer: &mut [u8],
    values: &mut [u64; 4],
) -> u8
    ensures { Meant sizes_told
        (CommitPromise table.now program.now allowance (record { numerator = numerator; denominator = denominator; steps = steps })
        workspace.old workspace.new answer.old answer.new) result values.new }
{
    let numbers = Handed {
        numerator,
        denominator,
        steps,
    };
    let reversed = commit(table, program, allowance, numbers, workspace, answer);
    tell(of_reversed(reversed), values)
}

#[unsafe(no_mangle)]
pub extern "C" fn braid_left_reverse(
    table: &[u8],
    program: &[u8],
    allowance: u16,
    workspace: &mut [u8],
    answer: &mut [u8],
    values: &mut [u64; 4],
) -> u8
    ensures { Meant sizes_told
        (LeftPromise table.now program.now allowance workspace.old workspace.new answer.old
        answer.new) result values.new }
{
    let reversed = left_reverse(table, program, allowance, workspace, answer);
    tell(of_reversed(reversed), values)
}

#[unsafe(no_mangle)]
pub extern "C" fn braid_clear(
    table: &[u8],
    allowance: u16,
    workspace: &mut [u8],
    values: &mut [u64; 4],
) -> u8
    ensures { Meant passed_told (ClearPromise table.now allowance workspace.old workspace.new) result values.new }
{
    let cleared = clear(table, allowance, workspace);
    tell(of_cleared(cleared), values)
}

#[unsafe(no_mangle)]
pub extern "C" fn braid_mirror_clear(
    table: &[u8],
    allowance: u16,
    workspace: &mut [u8],
    values: &mut [u64; 4],
) -> u8
    ensures { Meant passed_told (MirrorPromise table.now allowance workspace.old workspace.new) result values.new }
{
    let cleared = mirror_clear(table, allowance, workspace);
    tell(of_cleared(cleared), values)
}

#[unsafe(no_mangle)]
pub extern "C" fn braid_compare(
    table: &[u8],
    first: &[u8],
    second: &[u8],
    allowance: u16,
    workspace: &mut [u8],
    values: &mut [u64; 4],
) -> u8
    ensures { Meant verdict_told
        (ComparePromise table.now first.now second.now allowance workspace.old workspace.new) result
        values.new }
{
    let compared = compare(table, first, second, allowance, workspace);
    tell(of_compared(compared), values)
}

#[unsafe(no_mangle)]
pub extern "C" fn braid_compare_signed(
    table: &[u8],
    first: &[u8],
    second: &[u8],
    allowance: u16,
    workspace: &mut [u8],
    values: &mut [u64; 4],
) -> u8
    ensures { Meant signed_told
        (SignedPromise table.now first.now second.now allowance workspace.old workspace.new) result
        values.new }
{
    let compared = compare_signed(table, first, second, allowance, workspace);
    tell(of_compared_signed(compared), values)
}

#[unsafe(no_mangle)]
pub extern "C" fn braid_chain(
    table: &[u8],
    first: &[u8],
    second: &[u8],
    allowance: u16,
    workspace: &mut [u8],
    answer: &mut [u8],
    values: &mut [u64; 4],
) -> u8
    ensures { Meant chain_told
        (ChainPromise table.now first.now second.now allowance workspace.old workspace.new
        answer.old answer.new) result values.new }
{
    let chained = chain(table, first, second, allowance, workspace, answer);
    tell(of_chained(chained), values)
}

#[unsafe(no_mangle)]
pub extern "C" fn braid_remainder(
    table: &[u8],
    done: &[u8],
    pattern: &[u8],
    allowance: u16,
    workspace: &mut [u8],
    answer: &mut [u8],
    values: &mut [u64; 4],
) -> u8
    ensures { Meant remainder_told
        (RemainderPromise table.now done.now pattern.now allowance workspace.old workspace.new
        answer.old answer.new) result values.new }
{
    let remaining = remainder(table, done, pattern, allowance, workspace, answer);
    tell(of_remaining(remaining), values)
}

#[unsafe(no_mangle)]
pub extern "C" fn braid_check(
    table: &[u8],
    first: &[u8],
    second: &[u8],
    entries: &[u8],
    workspace: &mut [u8],
    values: &mut [u64; 4],
) -> u8
    ensures { Meant passage_told
        (CheckPromise table.now first.now second.now entries.now workspace.old workspace.new) result
        values.new }
{
    let checked = check(table, first, second, entries, workspace);
    tell(of_checked(checked), values)
}

#[unsafe(no_mangle)]
pub extern "C" fn braid_pack_table(plain: &[u8], answer: &mut [u8], values: &mut [u64; 4]) -> u8
    ensures { Meant bytes_told
        (PackPromise pack_table unpack_table read_plain_table read_table plain.now answer.old answer.new) result values.new }
{
    let packed = pack_table::pack(plain, answer);
    tell(of_packed(packed), values)
}

#[unsafe(no_mangle)]
pub extern "C" fn braid_unpack_table(table: &[u8], answer: &mut [u8], values: &mut [u64; 4]) -> u8
    ensures { Meant bytes_told
        (PackPromise unpack_table pack_table read_table read_plain_table table.now answer.old answer.new) result values.new }
{
    let unpacked = unpack_table::unpack(table, answer);
    tell(of_packed(unpacked), values)
}

#[unsafe(no_mangle)]
pub extern "C" fn braid_pack_program(
    table: &[u8],
    plain: &[u8],
    answer: &mut [u8],
    values: &mut [u64; 4],
) -> u8
    ensures { Meant bytes_told
        (PackPromise (pack_program table.now) (unpack_program table.now) (plain_program_under table.now)
        (program_under table.now) plain.now answer.old answer.new) result values.new }
{
    let packed = pack_program::pack(table, plain, answer);
    tell(of_packed(packed), values)
}

#[unsafe(no_mangle)]
pub extern "C" fn braid_unpack_program(
    table: &[u8],
    program: &[u8],
    answer: &mut [u8],
    values: &mut [u64; 4],
) -> u8
    ensures { Meant bytes_told
        (PackPromise (unpack_program table.now) (pack_program table.now) (program_under table.now)
        (plain_program_under table.now) program.now answer.old answer.new) result values.new }
{
    let unpacked = unpack_program::unpack(table, program, answer);
    tell(of_packed(unpacked), values)
}

#[unsafe(no_mangle)]
pub extern "C" fn braid_bed(
    table: &[u8],
    program: &[u8],
    moves: u64,
    answer: &mut [u8],
    values: &mut [u64; 4],
) -> u8
    ensures { Meant bytes_told (BedPromise table.now program.now moves answer.old answer.new) result
        values.new }
{
    let shown = bed(table, program, moves, answer);
    tell(of_packed(shown), values)
}

#[unsafe(no_mangle)]
pub extern "C" fn braid_ways(
    table: &[u8],
    program: &[u8],
    answer: &mut [u8],
    values: &mut [u64; 4],
) -> u8
    ensures { Meant counts_told (WaysPromise table.now program.now answer.old answer.new) result
        values.new }
{
    let listed = ways(table, program, answer);
    tell(of_ways(listed), values)
}

#[unsafe(no_mangle)]
pub extern "C" fn braid_import(
    table: &[u8],
    text: &[u8],
    answer: &mut [u8],
    values: &mut [u64; 4],
) -> u8
    ensures { Meant bytes_told (ImportPromise table.now text.now answer.old answer.new) result
        values.new }
{
    let imported = import(table, text, answer);
    tell(of_packed(imported), values)
}

#[unsafe(no_mangle)]
pub extern "C" fn braid_tray(
    table: &[u8],
    logs: &[u8],
    pattern: &[u8],
    allowance: u16,
    workspace: &mut [u8],
    answer: &mut [u8],
    values: &mut [u64; 4],
) -> u8
    ensures { Meant logs_told
        (TrayPromise table.now logs.now pattern.now allowance workspace.old workspace.new
        answer.old answer.new) result values.new }
{
    let compared = tray(table, logs, pattern, allowance, workspace, answer);
    tell(of_tray_compared(compared), values)
}
