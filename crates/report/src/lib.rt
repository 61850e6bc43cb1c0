// Which line stands where in what the program prints: its line i, for a settlement and the cells and order places that it left.
#![tactic(auto)]

ghost use Rattle.std.specs.Prelude.{◌≡◌, ◌+◌, min};
ghost use Rattle.rules.specs.Record.{first, vertices};
ghost use Rattle.rules.specs.Refusals.{tells};
ghost use Rattle.rules.specs.Program.{line_r};
ghost use Rattle.stops.specs.Cells.{says};
ghost use Rattle.lines.specs.Fills.{Fills};
ghost use Rattle.report.specs.Output.{settled_line, output_line, output_lines};

use lines::{
    line_committed, line_refused, line_settled, line_skipped, line_undecided, line_vertex,
};
use record::name_at;
use rules::{Counts, Settlement};
use stops::{Cell, cell_at};

// The line of a round, by its cell.
#[tactic(auto, unfolding(lines::proofs::Open::lines_open))]
fn round_line(table: &[u8], round: u32, cell: Cell, out: &mut [u8]) -> usize
    ensures { Fills (line_r (vertices first table.now) round (says cell)) out.old out.new result }
{
    match cell {
        Cell::Undecided => line_undecided(round, out),
        Cell::Skipped => line_skipped(round, out),
        Cell::Committed { position } => {
            let x = name_at(table, position);
            line_committed(round, x.author, x.mark, out)
        }
    }
}

// Line i of a settled table.
#[tactic(auto, using(crate::proofs::Placed::settled_placed))]
fn settled_line(
    c: Counts,
    table: &[u8],
    cells: &[u32],
    order: &[u32],
    i: usize,
    out: &mut [u8],
) -> usize
    ensures { Fills (settled_line c table.now cells.now order.now i) out.old out.new result }
{
    let Some(slot) = i.checked_sub(1) else {
        return line_settled(c, out);
    };
    let rounds = c.highest as usize;
    if slot < rounds {
        return round_line(table, i as u32, Cell::from(cell_at(cells, slot)), out);
    }
    let w = slot - rounds;
    if w < c.written {
        let position = order.get(w).copied().unwrap_or(0);
        return line_vertex(name_at(table, position as usize), out);
    }
    0
}

// Line i of what the program prints, from 0 on; past the last there are no bytes.
#[tactic(auto, using(crate::proofs::Placed::fills_none), unfolding(crate::specs::Output::output_line))]
pub fn output_line(
    s: Settlement,
    table: &[u8],
    cells: &[u32],
    order: &[u32],
    i: usize,
    out: &mut [u8],
) -> usize
    ensures { Fills (output_line (tells s.outcome) table.now cells.now order.now i)
        out.old out.new result }
{
    match s.outcome {
        Ok(c) => settled_line(c, table, cells, order, i, out),
        Err(r) if i == 0 => line_refused(r, out),
        Err(_) => 0,
    }
}

fn settled_lines(c: Counts) -> usize
    ensures { result ≡ min (1 + c.highest + c.written) 18446744073709551615 }
{
    (1 + c.highest as usize).saturating_add(c.written)
}

// How many lines there are. A sum that does not fit is told as the largest number.
#[tactic(auto, unfolding(crate::specs::Output::output_lines))]
pub fn output_lines(s: Settlement) -> usize
    ensures { result ≡ min (output_lines (tells s.outcome)) 18446744073709551615 }
{
    match s.outcome {
        Ok(c) => settled_lines(c),
        Err(_) => 1,
    }
}
