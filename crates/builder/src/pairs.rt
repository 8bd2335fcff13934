// The choice of the next gate: the first pair that makes a row one gate away, or else the pair that leaves the least to do.
ghost use Rattle.std.specs.Prelude.{◌≡◌, ℕ, ◌≤◌, ◌<◌, length, get_or};
ghost use Rattle.distance.specs.Base.{base_of, xor};
ghost use Rattle.builder.specs.Rule.{row, rows_of, squares, best, better, start, first_pair, all_pairs, best_pair};
ghost use Rattle.builder.specs.Kept.{Capped, misses as misses_of, look_up, places, rooms, lows, goals_after, goals_with, Goals as AreGoals, Weighing, Aimed, Choosing, Chosen};

use crate::base::{Added, Base, Rows};
use circuit::OUTPUTS;
use circuit::depth::{deeper, greatest_of};
use distance::table::{Costs, cost};

// A row that is not made yet: the table's place, the room 2^limit, and the distance less one.
#[derive(Clone, Copy)]
pub(crate) struct Goal {
    place: usize,
    room: u32,
    low: u32,
}

// The goals, first in an array (no heap), how many there are, and the sum of their lows.
#[derive(Clone, Copy)]
struct Aims {
    goals: [Goal; OUTPUTS],
    count: usize,
    floor: u32,
}

// The two lines that a gate reads.
#[derive(Clone, Copy)]
pub(crate) struct Pair {
    pub(crate) a: usize,
    pub(crate) b: usize,
}

// A pair, and the sums that it gives.
#[derive(Clone, Copy)]
struct Pick {
    total: u32,
    square: u32,
    pair: Pair,
}

// 0 where a line brings a goal one gate nearer, and 1 where the goal stays where it is. A line made from two of the base
// takes off one gate at most, so that this look-up tells the new distance.
// A number and no bool: each caller adds it.
pub(crate) fn misses(h: &Costs, place: usize, room: u32, line: Added) -> u32
    requires in_table { place < 2048 }
    requires capped { Capped h.now }
    ensures { result ≡ misses_of h.now line.mask line.cost place room }
{
    if h[place ^ (line.mask as usize)] + line.cost <= room {
        0
    } else {
        1
    }
}

// The sum of the squares of the distances after a line.
fn square_sum(goals: &[Goal], h: &Costs, line: Added) -> u32
    requires goals { AreGoals (places goals.now) (rooms goals.now) (lows goals.now) }
    requires capped { Capped h.now }
    ensures { result ≡ squares (goals_after (misses_of h.now line.mask line.cost) (places goals.now) (rooms goals.now) (lows goals.now)) }
{
    let mut sum: u32 = 0;
    for goal in goals {
        let gap = goal.low + misses(h, goal.place, goal.room, line);
        sum += gap * gap;
    }
    sum
}

// A smaller sum, or the same sum and a larger sum of squares.
fn improves(sum: u32, sq: u32, total: u32, square: u32) -> bool
    ensures { result ≡ better (best sum sq (xor 0 0)) (best total square (xor 0 0)) }
{
    sum < total || sum == total && square < sq
}

// The pair with depth at most `top` that gives the smallest sum of distances, then the largest sum of their squares, then
// the first. `floor` is what the sum is where every goal comes nearer; each goal that stays adds one, and the pair is
// dropped once its sum passes the best so far. A pair is passed over where an earlier one made the same mask at the same or
// a lesser depth: it brings nearer only goals that the earlier one does, so that its sum is no smaller, and where the sums
// are the same, so are the distances and their squares. The loops over pairs are nested, and the exit has a label: the
// builder's form.
fn weigh(base: &Base, goals: &[Goal], h: &Costs, top: u8, floor: u32) -> Pick
    requires { Weighing base.now.masks.now base.now.depths.now (places goals.now) (rooms goals.now) (lows goals.now) h.now top floor }
    ensures { let ls = base_of base.now.masks.now base.now.depths.now in all_pairs ls (goals_with (look_up h.now ls) (places goals.now) (rooms goals.now) (lows goals.now)) top (length base.now.masks.now) 0 start ≡ best result.total result.square (xor result.pair.a result.pair.b) }
{
    // Nothing chosen yet: the definition's `start`, which is more than any sum and so no Option.
    let mut pick = Pick {
        total: 4096,
        square: 0,
        pair: Pair { a: 0, b: 0 },
    };
    // The least depth at which each mask was weighed; at first one more than any pair may have, so that one test passes over
    // both what is too deep and what was weighed.
    let mut seen = [top + 1; 256];
    for i in 0..base.masks.len() {
        'pairs: for j in i + 1..base.masks.len() {
            let depth = deeper(base.depths[i], base.depths[j]);
            let mask = base.masks[i] ^ base.masks[j];
            if seen[mask as usize] <= depth {
                continue 'pairs;
            }
            seen[mask as usize] = depth;
            let line = Added {
                mask,
                cost: cost(depth),
            };
            let mut sum = floor;
            for goal in goals {
                sum += misses(h, goal.place, goal.room, line);
                if pick.total < sum {
                    continue 'pairs;
                }
            }
            let square = square_sum(goals, h, line);
            if improves(sum, square, pick.total, pick.square) {
                pick = Pick {
                    total: sum,
                    square,
                    pair: Pair { a: i, b: j },
                };
            }
        }
    }
    pick
}

// The goals: the rows whose distance is not 0.
fn aim(rows: &Rows, gaps: &[u8]) -> Aims
    requires paired { length rows.now.masks.now ≡ length gaps.now }
    requires near { ((i : ℕ) → get_or gaps.now i 0 < 8) }
    ensures { Aimed rows.now.masks.now rows.now.limits.now gaps.now (places result.goals) (rooms result.goals) (lows result.goals) result.count result.floor }
{
    let mut goals = [Goal {
        place: 0,
        room: 0,
        low: 0,
    }; OUTPUTS];
    let mut count: usize = 0;
    let mut floor: u32 = 0;
    for (i, gap) in gaps.iter().enumerate() {
        if *gap != 0 {
            let low = *gap - 1;
            goals[count] = Goal {
                place: usize::from(low) * 256 + rows.masks[i] as usize,
                room: cost(rows.limits[i]),
                low: u32::from(low),
            };
            floor += u32::from(low);
            count += 1;
        }
    }
    Aims {
        goals,
        count,
        floor,
    }
}

// The best pair.
fn best_pair(base: &Base, rows: &Rows, gaps: &[u8], h: &Costs) -> Pair
    requires { Choosing base.now.masks.now base.now.depths.now rows.now.masks.now rows.now.limits.now gaps.now h.now }
    ensures { best_pair (base_of base.now.masks.now base.now.depths.now) (rows_of rows.now.masks.now rows.now.limits.now) ≡ xor result.a result.b }
{
    let aims = aim(rows, gaps);
    let top = greatest_of(rows.limits);
    weigh(base, &aims.goals[..aims.count], h, top, aims.floor).pair
}

// The first pair of lines that makes a row within its limit, which is the first set of two: two loops (docs/DECISIONS, 76).
// Where there is none it is lines 0 and 0, as the definition `first_pair` has it: the one call is for a row that has such a
// pair, and has no use for an Option.
fn first_pair(base: &Base, t: u32, limit: u8) -> Pair
    ensures { first_pair (base_of base.now.masks.now base.now.depths.now) (row t limit) ≡ xor result.a result.b }
{
    for i in 0..base.masks.len() {
        for j in i + 1..base.masks.len() {
            if base.masks[i] ^ base.masks[j] == t
                && deeper(base.depths[i], base.depths[j]) <= limit
            {
                return Pair { a: i, b: j };
            }
        }
    }
    Pair { a: 0, b: 0 }
}

// What the next step is to do: the gate that it adds, or None where every row is made.
pub(crate) fn next_gate(base: &Base, rows: &Rows, gaps: &[u8], h: &Costs) -> Option<Pair>
    requires { Choosing base.now.masks.now base.now.depths.now rows.now.masks.now rows.now.limits.now gaps.now h.now }
    ensures { Chosen (base_of base.now.masks.now base.now.depths.now) (rows_of rows.now.masks.now rows.now.limits.now) result }
{
    let mut sum: u32 = 0;
    for (i, gap) in gaps.iter().enumerate() {
        if *gap == 1 {
            return Some(first_pair(base, rows.masks[i], rows.limits[i]));
        }
        sum += u32::from(*gap);
    }
    if sum == 0 {
        return None;
    }
    Some(best_pair(base, rows, gaps, h))
}
