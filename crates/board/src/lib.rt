// The working copy of a demand: copied in, filled to T, labelled, and peeled setting by setting.
// It promises the cells that the rules' definitions give, and that a label of outputs for each input stays in step with the cells: an
// output is in it just where the cell is not zero. It takes slices for any number of ports up to 128. Which settings there are, and how
// they are written, is left to the crates above.
#![tactic(auto)]

ghost use Rattle.std.specs.Prelude.{◌≡◌, ◌+◌, ◌-◌, ◌*◌, ◌<◌, ◌≤◌, length, set, eqb};
ghost use Rattle.switch.specs.Demand.{cell};
ghost use Rattle.labels.specs.Ports.{outputs_of, inputs_of};
ghost use Rattle.rules.specs.Fill.{fill};
ghost use Rattle.rules.specs.Exact.{least};
ghost use Rattle.board.specs.Level.{Sized, Within, Lacking, both, less_both, RowPre, RowFilled, FillPre, Uses, out_of};
ghost use Rattle.board.specs.Labelled.{RowOf, Labelled, TakePre, TakePost, SubtractPre, SubtractPost, Emptied};

use demand::{cell_at, line_sum};
use labels::{Inputs, Outputs, put_row, row_of};
pub use numbers::copy;
use switch::{InputPort, OutputPort};

// The lines of the largest switch.
const LINES: usize = 256;

// Cells in order are topped up, each by as much as its row and its column both allow (§6.2).
// Here and below a loop goes over ports: cells, lines and labels are all told by a port, which is more than a place in one slice.
pub fn fill_up(cells: &mut [u32], n: usize, longest: u64)
    requires { Within n longest cells.old }
    ensures { cells.new ≡ fill n longest cells.old }
{
    let mut lines = [0u32; LINES];
    let lacking = &mut lines[..n + n];
    measure(cells, n, longest, lacking);
    for i in 0..n {
        fill_row(cells, lacking, n, InputPort(i));
    }
}

// The cells of an input's row, in order.
fn fill_row(cells: &mut [u32], lacking: &mut [u32], n: usize, i: InputPort)
    requires { RowPre n cells.old lacking.old i.0 }
    ensures { RowFilled n cells.old lacking.old i.0 cells.new lacking.new }
{
    for j in 0..n {
        fill_cell(cells, lacking, n, i, OutputPort(j));
    }
}

// What each line lacks of T, inputs before outputs.
fn measure(cells: &[u32], n: usize, longest: u64, lacking: &mut [u32])
    requires { Within n longest cells.now × (length lacking.old ≡ n + n) }
    ensures { Lacking n longest cells.now lacking.new }
{
    for (k, lack) in lacking.iter_mut().enumerate() {
        *lack = (longest - line_sum(cells, n, k)) as u32;
    }
}

// The cell of a pair gets what both its lines lack, and they lack so much less.
fn fill_cell(cells: &mut [u32], lacking: &mut [u32], n: usize, i: InputPort, j: OutputPort)
    requires { FillPre n cells.old lacking.old i.0 j.0 }
    ensures { (cells.new ≡ set cells.old (i.0 * n + j.0) (cell n cells.old i.0 j.0 + both n lacking.old i.0 j.0)) × (lacking.new ≡ less_both n lacking.old i.0 j.0) }
{
    let row = i.0;
    let column = n + j.0;
    let at = cell_at(n, i, j);
    let across = lacking[row];
    let down = lacking[column];
    let more = across.min(down);
    cells[at] += more;
    lacking[row] = across - more;
    lacking[column] = down - more;
}

// The label of each input: the outputs whose cells are not zero.
pub fn label_rows(cells: &[u32], n: usize, rows: &mut [Outputs])
    requires { Sized n cells.now × (length rows.old ≡ n) }
    ensures { Labelled n cells.now rows.new }
{
    for (i, row) in rows.iter_mut().enumerate() {
        *row = label_row(cells, n, InputPort(i));
    }
}

// The label of one input. Nobody can foresee which cells are zero, so each output is marked and where its cell is zero cleared again.
fn label_row(cells: &[u32], n: usize, i: InputPort) -> Outputs
    requires { Sized n cells.now × (i.0 < n) }
    ensures { RowOf n cells.now i.0 (outputs_of result) }
{
    let row = i.0 * n;
    let mut label = Outputs::none();
    for j in 0..n {
        let marked = label.mark(OutputPort(j));
        label = marked.without_if(OutputPort(j), cells[row + j] == 0);
    }
    label
}

// The hold of a setting: the smallest cell it uses.
pub fn smallest(cells: &[u32], n: usize, out: &[u8]) -> u32
    requires { Uses n cells.now out.now }
    ensures { result ≡ least (n - 1) (λ i. cell n cells.now i (out_of out.now i)) }
{
    let first = used(n, out, InputPort(0));
    let mut hold = cells[first];
    for i in 1..n {
        let at = used(n, out, InputPort(i));
        hold = hold.min(cells[at]);
    }
    hold
}

// Where the cell stands that input i uses.
fn used(n: usize, out: &[u8], i: InputPort) -> usize
    requires { (n ≤ 128) × (i.0 < n) × (n ≤ length out.now) × (out_of out.now i.0 < n) }
    ensures { result ≡ i.0 * n + out_of out.now i.0 }
{
    let k = i.0;
    cell_at(n, i, OutputPort(out[k] as usize))
}

// The cells that a setting uses are less by the hold. The answer has every input whose cell that emptied.
pub fn subtract(cells: &mut [u32], n: usize, rows: &mut [Outputs], out: &[u8], hold: u32) -> Inputs
    requires { SubtractPre n cells.old rows.old out.now hold }
    ensures { SubtractPost n cells.old out.now hold cells.new rows.new × Emptied n cells.new out.now (inputs_of result) n }
{
    let mut emptied = Inputs::none();
    for i in 0..n {
        let j = out[i] as usize;
        if empties(cells, n, rows, InputPort(i), OutputPort(j), hold) {
            emptied = emptied.mark(InputPort(i));
        }
    }
    emptied
}

// The cell of a pair is less by the hold: is nothing left? Few cells are emptied by a hold, so that the label is touched only where
// one is.
fn empties(
    cells: &mut [u32],
    n: usize,
    rows: &mut [Outputs],
    i: InputPort,
    j: OutputPort,
    hold: u32,
) -> bool
    requires { TakePre n cells.old rows.old i.0 j.0 hold }
    ensures { TakePost n cells.old i.0 j.0 hold cells.new rows.new × (result ≡ eqb (cell n cells.old i.0 j.0 - hold) 0) }
{
    let at = cell_at(n, i, j);
    let left = cells[at] - hold;
    cells[at] = left;
    if left != 0 {
        return false;
    }
    let row = row_of(rows, i);
    put_row(rows, i, row.without(j));
    true
}

// The cell of a pair is less by the hold, and its output leaves the label where nothing is left. Nobody can foresee whether that is so,
// and thus the label is written either way.
pub fn take(
    cells: &mut [u32],
    n: usize,
    rows: &mut [Outputs],
    i: InputPort,
    j: OutputPort,
    hold: u32,
)
    requires { TakePre n cells.old rows.old i.0 j.0 hold }
    ensures { TakePost n cells.old i.0 j.0 hold cells.new rows.new }
{
    let at = cell_at(n, i, j);
    let left = cells[at] - hold;
    cells[at] = left;
    let row = row_of(rows, i);
    put_row(rows, i, row.without_if(j, left == 0));
}
