// What a choice is made over: the lines so far, the rows, and a line that may be added.
ghost use Rattle.std.specs.Prelude.{◌≡◌, ℕ, ◌≤◌, ◌<◌, length, get_or};
ghost use Rattle.circuit.specs.Sizes.{most_outputs};
ghost use Rattle.distance.specs.Base.{Shallow};

// The lines so far: a mask and a depth of each.
// Not the `Base` of `distance`: the masks here are of 32 bits (docs/DECISIONS, 68).
#[derive(Clone, Copy)]
pub(crate) struct Base<'a> {
    pub(crate) masks: &'a [u32],
    pub(crate) depths: &'a [u8],
    ghost even: { length masks.now ≡ length depths.now },
    ghost shallow: { Shallow depths.now },
}

// The rows: a mask and a limit of each.
#[derive(Clone, Copy)]
pub(crate) struct Rows<'a> {
    pub(crate) masks: &'a [u32],
    pub(crate) limits: &'a [u8],
    ghost paired: { length masks.now ≡ length limits.now },
    ghost few: { length masks.now ≤ most_outputs },
    ghost bytes: { (i : ℕ) → get_or masks.now i 0 < 256 },
}

// A line that may be added: its mask, and its cost 2^depth.
#[derive(Clone, Copy)]
pub(crate) struct Added {
    pub(crate) mask: u32,
    pub(crate) cost: u32,
    ghost byte: { mask < 256 },
    ghost cheap: { cost ≤ 32768 },
}
