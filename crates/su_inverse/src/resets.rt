// What is restored without memory.
use su_bytes::Place;
use su_op::Area;

/// What an area held that is restored without memory: nothing, or a number of links.
#[derive(Drop)]
pub enum Reset {
    /// Nothing was in the area.
    Nothing(Area),
    Links(Place, u8),
}
