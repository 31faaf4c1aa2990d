// What holds of the definitions themselves, at one small system. (A contract can't speak of every
// system.)
ghost use Rattle.su_undo.specs.System.{Lawful};
ghost use Rattle.su_undo.specs.Replay.{UndoIsSafe};
ghost use Rattle.su_undo.specs.Registers.{registers};
ghost use Rattle.su_undo.specs.RegisterBatches.{lists};
ghost use Rattle.su_undo.specs.Batch.{batched};
ghost use Rattle.su_undo.specs.Flat.{ReplaysFlat, NothingReadInside};
ghost use Rattle.su_undo.specs.Blocking.{BlocksByActions};

/// Registers, of which one is copied into another, are a lawful system.
pub fn registers_are_lawful()
    ensures { Lawful registers }
{}

/// So a copy can be taken out whose register no later copy reads.
pub fn copies_can_be_undone()
    ensures { UndoIsSafe registers }
{}

/// Batches of copies are a lawful system.
pub fn batches_are_lawful()
    ensures { Lawful (batched registers lists) }
{}

/// So a batch can be taken out whose registers no later batch reads.
pub fn batches_can_be_undone()
    ensures { UndoIsSafe (batched registers lists) }
{}

/// Batches lead where their copies lead.
pub fn batches_replay_flat()
    ensures { ReplaysFlat registers lists }
{}

/// What a batch reads is what it reads from outside of it.
pub fn nothing_read_inside()
    ensures { NothingReadInside registers lists }
{}

/// A batch is blocked just where one of its copies would be, by a copy outside of it.
pub fn batches_block_by_actions()
    ensures { BlocksByActions registers lists }
{}
