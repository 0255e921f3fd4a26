// The order of a sweep's pairs. Everything else of this crate is theory, in specs/.
#![tactic(auto)]

#[derive(Clone, Copy, Debug, PartialEq, Eq)]
pub enum Order {
    Cyclic,
    Tournament,
}
