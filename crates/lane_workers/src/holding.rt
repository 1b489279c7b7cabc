use instance_table::Brief;
use std::sync::Arc;

/// What a lane has in hand: the brief from which party p makes its share.
#[derive(Drop)]
pub(crate) struct Holding {
    pub(crate) p: u32,
    pub(crate) brief: Arc<Brief>,
}
