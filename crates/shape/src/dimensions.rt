// The two numbers of a code.
ghost use Rattle.std.specs.Prelude.{◌≡◌, ◌*◌, ◌≤◌};

// A code with q rows and t columns of nodes.
#[derive(Clone, Copy, Debug, PartialEq, Eq)]
pub struct Shape {
    pub(crate) q: usize,
    pub(crate) t: usize,
    ghost wide: { 2 ≤ q },
    ghost deep: { 2 ≤ t },
    ghost few: { q * t ≤ 16 },
}

impl Shape {
    // The number of rows.
    pub fn rows(self) -> usize
        ensures { result ≡ self.q }
    {
        self.q
    }

    // The number of columns.
    pub fn columns(self) -> usize
        ensures { result ≡ self.t }
    {
        self.t
    }
}
