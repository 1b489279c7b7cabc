use mod_ring::Transformed;

/// A row (b, a) of a switch key, transformed.
#[derive(Drop)]
pub(crate) struct Row {
    pub(crate) b: Transformed,
    pub(crate) a: Transformed,
}
