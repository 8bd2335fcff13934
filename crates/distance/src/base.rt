// A base of lines that was looked at.
ghost use Rattle.std.specs.Prelude.{◌≡◌, ◌≤◌, length};
ghost use Rattle.distance.specs.Base.{Shallow};

// A mask and a depth of each line.
#[derive(Clone, Copy)]
pub(crate) struct Base<'a> {
    pub(crate) masks: &'a [u8],
    pub(crate) depths: &'a [u8],
    ghost even: { length masks.now ≡ length depths.now },
    ghost few_lines: { length masks.now ≤ 256 },
    ghost shallow: { Shallow depths.now },
}
