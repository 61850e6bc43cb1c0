// All that the program prints, in one lent buffer.
#![tactic(auto)]

ghost use Rattle.io.specs.Counts.{IsPrefixLen};
ghost use Rattle.rules.specs.Refusals.{tells};
ghost use Rattle.page.specs.Page.{OutputPage};

use rules::Settlement;

// Each line in turn, after the ones before it. A line for which there is no room is left out; 112 bytes for each line are room enough. What a
// settlement leaves is handed on as it is lent, as in `report`: so their promises say it.
pub fn output_page(
    s: Settlement,
    table: &[u8],
    cells: &[u32],
    order: &[u32],
    out: &mut [u8],
) -> usize
    ensures output_page { OutputPage (tells s.outcome) table.now cells.now order.now
        out.old out.new result }
    ensures prefix_len { IsPrefixLen result out.new }
{
    let lines = report::output_lines(s);
    let mut done: usize = 0;
    for i in 0..lines {
        done += report::output_line(s, table, cells, order, i, &mut out[done..]);
    }
    done
}
