// What a server and a copy of one run with.
use crate::ends::Ends;
use su_shared_items::SharedBlocks;

/// What the keeper of a store runs with: the items that its records need, and whether to end, as it
/// can't keep more.
#[derive(Drop)]
pub(crate) struct Setting<'a, T> {
    pub rt: &'a HostRuntime,
    pub host: &'a T,
    pub blocks: &'a SharedBlocks,
    pub ends: &'a Ends,
}
