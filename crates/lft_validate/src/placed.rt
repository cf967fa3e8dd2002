//! Names where they stand.

/// A name, and the token that it is.
#[derive(Clone, Copy, Drop)]
pub struct NameAt<'a> {
    pub name: &'a str,
    pub at: usize,
}
