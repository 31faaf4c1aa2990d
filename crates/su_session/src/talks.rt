// How far a session has come.
ghost use Rattle.std.specs.Prelude.{◌+◌, ◌*◌, ◌<◌, ◌≤◌, length};

use su_frames::Frames;

/// What was read and isn't answered, which is less than a message and what one read brings; how
/// many messages were answered; whether the turn is held; whether it wasn't behind some message
/// since the last read; how often was read.
#[derive(Drop)]
pub(crate) struct Talk {
    pub(crate) frames: Frames,
    pub(crate) answered: u64,
    pub(crate) turn: bool,
    pub(crate) was_free: bool,
    pub(crate) reads: u32,
    ghost room: { length frames < 131076 + 4096 },
    ghost few: { reads ≤ 10000000 },
    ghost small: { answered + length frames ≤ reads * 4096 },
}
