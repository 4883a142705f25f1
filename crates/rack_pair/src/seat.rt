// The room of a pair that a node is in, with its number there.
#[derive(Clone, Copy)]
pub enum Seat {
    First(usize),
    Second(usize),
}
