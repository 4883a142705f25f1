// What a line asks for.

// The field of a vault, by its name on a line.
#[derive(Clone, Copy, Debug, PartialEq, Eq)]
pub enum Kind {
    Byte,
    Prime,
}

// A line that has the form of a command.
#[derive(Debug, PartialEq, Eq, Drop)]
pub enum Command {
    Open(Kind, u16, u16),
    Store(Vec<u16>),
    DropNode(u16),
    Alter(u16, u16, u16),
    Repair(u16),
    Recover,
    Read(u16, u16),
}
