// A live operation.
use su_kept_areas::KeptFootprint;

/// A live operation: its number, the cells that it read and wrote, and what those that it wrote held
/// before.
#[derive(Drop)]
pub struct LiveOperation<I> {
    pub number: u64,
    pub footprint: KeptFootprint,
    pub inverse: I,
}
