ghost use Rattle.cells.specs.Stands.{Blank};
ghost use Rattle.loading.specs.Loading.{TableProgramDone, ProgramsDone};

use images::programs::{Signs, read_as};
use images::tables::read_table;
use model::answers::Refusal;

// A table of so many letters, and two programs of `firsts` and `seconds` letters, with what these weigh.
#[derive(Clone, Copy)]
pub struct Programs {
    pub size: u8,
    pub firsts: u16,
    pub seconds: u16,
    pub first_weight: u16,
    pub second_weight: u16,
}

// A table of so many letters, and a program of `count` letters, with what these weigh.
#[derive(Clone, Copy)]
pub struct TableProgram {
    pub size: u8,
    pub count: u16,
    pub weight: u16,
}

// Reads a table image into cells, then the image of a program.
pub fn read_table_program(
    table: &[u8],
    program: &[u8],
    signs: Signs,
    cells: &mut [u8],
) -> Result<TableProgram, Refusal>
    requires { Blank cells.old }
    ensures { TableProgramDone table.now program.now signs cells.new result }
{
    let size = read_table(table, cells)?;
    let read = read_as(program, cells, size, signs)?;
    Ok(TableProgram {
        size,
        count: read.count,
        weight: read.weight,
    })
}

// Reads a table image into cells, then the images of two programs.
pub fn read_programs(
    table: &[u8],
    first: &[u8],
    second: &[u8],
    signs: Signs,
    cells: &mut [u8],
) -> Result<Programs, Refusal>
    requires { Blank cells.old }
    ensures { ProgramsDone table.now first.now second.now signs cells.new result }
{
    let one = read_table_program(table, first, signs, cells)?;
    let two = read_as(second, cells, one.size, signs)?;
    Ok(Programs {
        size: one.size,
        firsts: one.count,
        seconds: two.count,
        first_weight: one.weight,
        second_weight: two.weight,
    })
}
