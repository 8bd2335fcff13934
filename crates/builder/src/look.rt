// What is refused before anything is built, in the order of the definition.
ghost use Rattle.std.specs.List.{list_any};
ghost use Rattle.std.specs.Prelude.{map, ltb, ◌≡◌, ◌^◌, ◌≤◌, ◌<◌, length};
ghost use Rattle.circuit.specs.Lines.{any_of};
ghost use Rattle.circuit.specs.Sizes.{most_inputs};
ghost use Rattle.distance.specs.Base.{Shallow};
ghost use Rattle.builder.specs.Rule.{rows_of};
ghost use Rattle.builder.specs.Call.{bad_row};
ghost use Rattle.builder.specs.Late.{too_late, late_refusal};
ghost use Rattle.builder.specs.Kept.{Summed, Looking};

use circuit::Refusal;
use circuit::rules::is_shape;
use distance::table::cost;

// The inputs: how many, and the arrival of each.
#[derive(Clone, Copy)]
pub(crate) struct Inputs<'a> {
    pub(crate) n: usize,
    pub(crate) arrivals: &'a [u8],
    ghost few: { n ≤ most_inputs },
    ghost each: { length arrivals.now ≡ n },
    ghost early: { Shallow arrivals.now },
}

// What a row's inputs come to: how many they are, and their sum of 2^arrival.
#[derive(Clone, Copy)]
pub(crate) struct RowSums {
    pub(crate) weight: usize,
    pub(crate) load: u32,
}

// 2 to the power k.
pub(crate) fn power(k: usize) -> usize
    requires { k ≤ 15 }
    ensures { result ≡ 2 ^ k }
{
    1usize << k
}

// A row's weight and load, from the highest input down.
pub(crate) fn sums_of(inputs: &Inputs, t: u8) -> RowSums
    requires { t < 2 ^ inputs.now.n }
    ensures { Summed inputs.now.n inputs.now.arrivals.now t result.weight result.load }
{
    let mut weight: usize = 0;
    let mut load: u32 = 0;
    let mut rest = usize::from(t);
    for k in (0..inputs.n).rev() {
        let top = power(k);
        if top <= rest {
            rest -= top;
            weight += 1;
            load += cost(inputs.arrivals[k]);
        }
    }
    RowSums { weight, load }
}

// Whether a row is 0, or reaches 2^n.
fn any_bad(n: usize, rows: &[u8]) -> bool
    requires { n ≤ most_inputs }
    ensures { result ≡ list_any (bad_row n) rows.now }
{
    let end = power(n);
    rows.iter().any(|t| *t == 0 || end <= usize::from(*t))
}

// Whether one of these depths is over 15.
fn any_deep(depths: &[u8]) -> bool
    ensures { result ≡ list_any (ltb 15) depths.now }
{
    depths.iter().any(|d| 15 < *d)
}

// Whether a row's load exceeds 2^limit.
fn any_late(inputs: &Inputs, rows: &[u8], limits: &[u8]) -> bool
    requires { Looking inputs.now.n inputs.now.arrivals.now rows.now limits.now }
    ensures { result ≡ any_of (map (too_late inputs.now.n inputs.now.arrivals.now) (rows_of rows.now limits.now)) }
{
    for (i, t) in rows.iter().enumerate() {
        if cost(limits[i]) < sums_of(inputs, *t).load {
            return true;
        }
    }
    false
}

// The first refusal that applies, or that none does.
pub(crate) fn look(n: usize, arrivals: &[u8], rows: &[u8], limits: &[u8]) -> Result<(), Refusal>
    ensures { result ≡ late_refusal n arrivals.now rows.now limits.now }
{
    if !is_shape(n, rows.len(), 0) {
        return Err(Refusal::Shape);
    }
    if arrivals.len() != n || limits.len() != rows.len() {
        return Err(Refusal::Length);
    }
    if any_bad(n, rows) {
        return Err(Refusal::Target);
    }
    if any_deep(arrivals) || any_deep(limits) {
        return Err(Refusal::TooDeep);
    }
    if any_late(&Inputs { n, arrivals }, rows, limits) {
        return Err(Refusal::TooShallow);
    }
    Ok(())
}
