// Chain (specification 6.6): as compare; where the verdict is `same`, a chain of swaps is listed in the answer area.
ghost use Rattle.std.specs.Prelude.{◌≡◌, ◌≤◌, length, replicate};
ghost use Rattle.model.specs.Outcome.{mapped};
ghost use Rattle.model.specs.Services.{chain_bytes, chain, chain_answer};
ghost use Rattle.model.specs.Stated.{compared, chained};
ghost use Rattle.model.specs.Images.{most_size};
ghost use Rattle.loading.specs.Loading.{Forward};
ghost use Rattle.loading.specs.Weighing.{Weigh};
ghost use Rattle.chaining.specs.Chain.{EndsSame, ProgramsListed, Lists, ChainPromise};

use areas::bytes::wipe;
use cells::layout::CELLS;
use chain_listing::listing::list;
use comparing::compare::compare_programs;
use engine::gap::Gap;
use entries::entry::chain_bytes;
use images::programs::Signs;
use loading::loading::{Programs, read_programs};
use loading::reversing::load_programs;
use model::answers::{Chained, Compared, Refusal};

// Lists a chain of two programs whose comparison in this workspace said `same`. The workspace is wiped.
pub fn list_programs(
    cells: &[u8],
    first: &[u8],
    second: &[u8],
    loaded: Programs,
    relations: u16,
    workspace: &mut [u8],
    answer: &mut [u8],
)
    requires programs { Forward cells.now loaded.size first.now loaded.firsts second.now loaded.seconds }
    requires same { EndsSame cells.now loaded.size first.now second.now (length workspace.old) relations }
    requires room { chain_bytes loaded.size relations ≤ length answer.old }
    ensures wiped { workspace.new ≡ replicate (length workspace.old) 0 }
    ensures listed { ProgramsListed cells.now loaded.size first.now second.now relations answer.old
        answer.new }
{
    let left = loaded.firsts as usize;
    let right = workspace.len() - loaded.seconds as usize;
    load_programs(first, second, loaded, workspace);
    list(
        cells,
        loaded.size,
        workspace,
        Gap { left, right },
        relations,
        answer,
    );
    wipe(workspace);
}

// Two accepted forward programs under a table that was loaded. The workspace is wiped, unless the weight check refused.
pub fn chain_programs(
    cells: &[u8],
    first: &[u8],
    second: &[u8],
    loaded: Programs,
    budget: u16,
    workspace: &mut [u8],
    answer: &mut [u8],
) -> Result<Compared, Refusal>
    requires programs { Forward cells.now loaded.size first.now loaded.firsts second.now loaded.seconds }
    requires weights { Weigh cells.now loaded.size first.now loaded.first_weight second.now loaded.second_weight }
    ensures { Lists cells.now loaded.size first.now second.now budget workspace.old workspace.new
        answer.old answer.new result }
{
    let verdict = compare_programs(cells, first, second, loaded, budget, workspace)?;
    let Compared::Same {
        steps: _,
        relations,
    } = verdict
    else {
        return Ok(verdict);
    };
    if answer.len() < chain_bytes(loaded.size, relations) {
        return Err(Refusal::AnswerShort);
    }
    list_programs(cells, first, second, loaded, relations, workspace, answer);
    Ok(verdict)
}

// The answer of chain: what is listed has an entry for each step on two different letters.
pub fn listed(verdict: Result<Compared, Refusal>, size: u8) -> Result<Chained, Refusal>
    requires { (1 ≤ size) × (size ≤ most_size) }
    ensures { chained result ≡ mapped (chain_answer size) (compared verdict) }
{
    match verdict? {
        Compared::Same { steps, relations } => Ok(Chained::Listed {
            steps,
            entries: relations,
            bytes: chain_bytes(size, relations),
        }),
        Compared::Different { steps } => Ok(Chained::Unlisted { steps }),
    }
}

pub fn chain(
    table: &[u8],
    first: &[u8],
    second: &[u8],
    allowance: u16,
    workspace: &mut [u8],
    answer: &mut [u8],
) -> Result<Chained, Refusal>
    ensures { ChainPromise table.now first.now second.now allowance workspace.old workspace.new
        answer.old answer.new (chained result) }
{
    let mut cells = [0u8; CELLS];
    let loaded = read_programs(table, first, second, Signs::Forward, &mut cells)?;
    let verdict = chain_programs(&cells, first, second, loaded, allowance, workspace, answer);
    listed(verdict, loaded.size)
}
