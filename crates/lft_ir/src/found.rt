//! What a name of the program stands for.

/// A thing of the program, by its number among its kind.
#[derive(Clone, Copy, PartialEq, Eq, Debug, Drop)]
pub enum Found {
    Instance(u32),
    Port(u32),
    Action(u32),
    Timer(u32),
    Reaction(u32),
}
