/// What a deallocated block may read as (DLFEAT of Identify Namespace).
#[derive(Clone, Copy, Debug, PartialEq, Eq)]
pub enum Deallocated {
    /// Zeroes (001b).
    Zeroes,
    /// FFh in each byte (010b).
    Ones,
    /// Either (000b, or not known).
    Either,
}
