// The sizes and the bytes of files.
use su_bytes::Place;
use su_op::BlockRun;

/// How many bytes a file had.
#[derive(Drop)]
pub struct KeptSize {
    pub place: Place,
    pub size: u32,
}

/// The bytes that a file had in a run of blocks.
#[derive(Drop)]
pub struct KeptBlocks {
    pub place: Place,
    pub run: BlockRun,
    pub bytes: Vec<u8>,
}
