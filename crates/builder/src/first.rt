// The table of the inputs: the set of a mask's own inputs is the only one that makes it.
ghost use Rattle.std.specs.Prelude.{◌+◌, ◌<◌};
ghost use Rattle.distance.specs.Base.{arriving};
ghost use Rattle.builder.specs.Kept.{Held, MaskSums};

use crate::look::{Inputs, power};
use distance::table::{Costs, cost};

// More than any load: a mask's weight is counted in these, its load stands below, and in the table it says that there is no
// such set.
// The number of `distance`'s table for no set: its promises are minima of numbers, so that it is no Option.
const FAR: u32 = 1048576;

// The sums of the masks below 2^(i + 1): those below 2^i, and with input i each again.
fn take_input(sums: &mut [u32; 256], inputs: &Inputs, i: usize)
    requires an_input { i < inputs.now.n }
    requires sums_below { MaskSums i inputs.now.arrivals.now sums.old }
    ensures { MaskSums (i + 1) inputs.now.arrivals.now sums.new }
{
    let top = power(i);
    let c = FAR + cost(inputs.arrivals[i]);
    for t in 0..top {
        sums[top + t] = sums[t] + c;
    }
}

// The weight and the load of each mask, in one number.
fn mask_sums(inputs: &Inputs) -> [u32; 256]
    ensures { MaskSums inputs.now.n inputs.now.arrivals.now result }
{
    let mut sums = [0u32; 256];
    for i in 0..inputs.n {
        take_input(&mut sums, inputs, i);
    }
    sums
}

// The table of the inputs at their arrivals: the entry of a mask's weight is its load, and there is no other set.
pub(crate) fn first_table(inputs: &Inputs) -> Costs
    ensures { Held result (arriving inputs.now.n inputs.now.arrivals.now) 9 }
{
    let sums = mask_sums(inputs);
    let mut h = [FAR; 2304];
    for t in 0..power(inputs.n) {
        let sum = sums[t];
        // (`as usize`, here and below: there is no `usize::from` of a u32.)
        let weight = (sum / FAR) as usize;
        h[weight * 256 + t] = sum % FAR;
    }
    h
}
