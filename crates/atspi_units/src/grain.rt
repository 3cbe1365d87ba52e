//! How coarse the pieces are in which a text is read.

/// How coarse the pieces are in which a text is read: characters, words or lines (AT-SPI2, `AtspiTextGranularity`).
#[derive(Clone, Copy, Debug, PartialEq, Eq)]
pub enum Grain {
    /// Each character is a piece.
    Char,
    /// The pieces between word boundaries, blanks and punctuation too (Unicode Standard Annex 29, "Word Boundaries").
    Word,
    /// A piece ends behind each line feed. Lines are not wrapped.
    Line,
}
