// Lists of nodes that are out.
ghost use Rattle.std.specs.Prelude.{◌≡◌, ◌≤◌, true, take};
ghost use Rattle.shape.specs.Outages.{rising};

// Strictly rising node numbers below the number of nodes. It may be empty, or hold all of them.
// In fixed memory, and copied as plain data: so an array with a length, and no vector.
// No equality is derived, since numbers past the length are no part of the list.
#[derive(Clone, Copy)]
pub struct OutageList {
    // how many nodes there are, out or not
    pub(crate) count: usize,
    // how many of the numbers are in use
    pub(crate) len: usize,
    pub(crate) numbers: [usize; 16],
    ghost few: { count ≤ 16 },
    ghost held: { len ≤ 16 },
    ghost rises: { rising count (take len numbers) ≡ true },
}
