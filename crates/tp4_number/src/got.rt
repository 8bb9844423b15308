//! What a DT is to a receiving half (X.224, class 4: explicit flow control).

/// What a DT was.
#[derive(Clone, Copy, Debug)]
pub enum Got {
    /// Its piece is kept.
    Kept,
    /// It came before.
    Old,
    /// It lies beyond the credit.
    Outside,
    /// Its unit would be too large.
    TooLarge,
}
