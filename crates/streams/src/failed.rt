/// An object of the outside met a fault, and counted it.
#[derive(Clone, Copy, Debug, PartialEq, Eq)]
pub struct Failed;
