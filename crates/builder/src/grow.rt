// The steps: the base grows by a gate until every row is made.
ghost use Rattle.std.specs.Prelude.{◌≡◌, ◌≤◌, ◌<◌, length};
ghost use Rattle.circuit.specs.Sizes.{most_outputs};
ghost use Rattle.circuit.specs.Lines.{padded};
ghost use Rattle.builder.specs.Rule.{rows_of};
ghost use Rattle.builder.specs.Kept.{Capped, base, misses as misses_of, next_gap, next_gaps, Lowering, Poised, Tabled, Next, Stepped, SoFar, Chosen, Grown};

use crate::base::{Added, Base, Rows};
use crate::pairs::{Pair, misses, next_gate};
use circuit::depth::{deeper, greatest_of};
use circuit::{GATES, LINES, OUTPUTS};
use distance::table::{Costs, cost, take_in};

// The lines so far, the rows' distances from them, and the operands of the gates taken. No heap: arrays, and beside them how
// many of each are in use.
#[derive(Clone, Copy)]
pub(crate) struct State {
    pub(crate) masks: [u32; LINES],
    pub(crate) depths: [u8; LINES],
    pub(crate) len: usize,
    pub(crate) gaps: [u8; OUTPUTS],
    pub(crate) left: [u16; GATES],
    pub(crate) right: [u16; GATES],
    pub(crate) count: usize,
}

// A row's distance after a line.
// `Capped` is asked in three contracts and no ghost field: the table is an array of `distance`.
fn lower(h: &Costs, gap: u8, t: u32, limit: u8, line: Added) -> u8
    requires near { gap < 9 }
    requires capped { Capped h.now }
    requires byte { t < 256 }
    ensures { result ≡ next_gap (misses_of h.now line.mask line.cost) gap t limit }
{
    if gap == 0 {
        return 0;
    }
    let low = gap - 1;
    let place = usize::from(low) * 256 + (t as usize);
    low + (misses(h, place, cost(limit), line) as u8)
}

// The rows' distances after a line, by a look-up each.
// Rows, distances and table go one by one: the call has the rows, the state the distances, the loop the table.
fn lowered(gaps: &[u8], rows: &Rows, h: &Costs, line: Added) -> [u8; OUTPUTS]
    requires { Lowering gaps.now rows.now.masks.now rows.now.limits.now h.now line.mask line.cost }
    ensures { result ≡ padded most_outputs 0 (next_gaps (misses_of h.now line.mask line.cost) gaps.now rows.now.masks.now rows.now.limits.now) }
{
    let mut next = [0u8; OUTPUTS];
    for (i, gap) in gaps.iter().enumerate() {
        next[i] = lower(h, *gap, rows.masks[i], rows.limits[i], line);
    }
    next
}

// What a state's next step is to do.
fn turn(s: &State, rows: &Rows, h: &Costs) -> Option<Pair>
    requires poised { Poised rows.now.masks.now rows.now.limits.now s.now }
    requires tabled { Tabled rows.now.masks.now rows.now.limits.now s.now h.now }
    ensures { Chosen (base s.now) (rows_of rows.now.masks.now rows.now.limits.now) result }
{
    let base = Base {
        masks: &s.masks[..s.len],
        depths: &s.depths[..s.len],
    };
    next_gate(&base, rows, &s.gaps[..rows.masks.len()], h)
}

// Adds the gate that reads a pair of lines: the distances by the table before the new line, then the table. Only the sizes
// that some row still asks are kept up: distances never grow, so the others are never read again.
fn add_gate(s: &mut State, rows: &Rows, h: &mut Costs, pair: Pair)
    requires poised { Poised rows.now.masks.now rows.now.limits.now s.old }
    requires tabled { Tabled rows.now.masks.now rows.now.limits.now s.old h.old }
    requires next { Next (base s.old) (rows_of rows.now.masks.now rows.now.limits.now) pair.a pair.b }
    requires room { s.old.count < 224 }
    ensures { Stepped rows.now.masks.now rows.now.limits.now s.old s.new h.new pair.a pair.b }
{
    let mask = s.masks[pair.a] ^ s.masks[pair.b];
    let depth = deeper(s.depths[pair.a], s.depths[pair.b]);
    let line = Added {
        mask,
        cost: cost(depth),
    };
    let gaps = lowered(&s.gaps[..rows.masks.len()], rows, h, line);
    let top = greatest_of(&gaps[..rows.masks.len()]);
    take_in(h, mask as u8, line.cost, usize::from(top));
    s.masks[s.len] = mask;
    s.depths[s.len] = depth;
    s.len += 1;
    s.gaps = gaps;
    s.left[s.count] = pair.a as u16;
    s.right[s.count] = pair.b as u16;
    s.count += 1;
}

// All the steps: while some row is not made, a gate is added, 224 at most.
pub(crate) fn grow(s: &mut State, rows: &Rows, h: &mut Costs)
    requires so_far { SoFar (base s.old) rows.now.masks.now rows.now.limits.now s.old }
    requires tabled { Tabled rows.now.masks.now rows.now.limits.now s.old h.old }
    ensures { Grown (base s.old) (rows_of rows.now.masks.now rows.now.limits.now) s.new }
{
    // A `while` on the state's own count: a second one in a `for` would say the same twice.
    while s.count < 224 {
        let Some(pair) = turn(s, rows, h) else {
            return;
        };
        add_gate(s, rows, h, pair);
    }
}

// The rows in 32 bits.
pub(crate) fn widened(rows: &[u8]) -> [u32; OUTPUTS]
    requires { length rows.now ≤ most_outputs }
    ensures { result ≡ padded most_outputs 0 rows.now }
{
    let mut wide = [0u32; OUTPUTS];
    for (i, row) in rows.iter().enumerate() {
        wide[i] = u32::from(*row);
    }
    wide
}
