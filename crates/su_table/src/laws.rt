// What holds of the definitions themselves.
ghost use Rattle.std.specs.Prelude.{◌+◌, ℕ};
ghost use Rattle.su_table.specs.Cost.{AByteMakesFewHashes, hashes_of_inode};
ghost use Rattle.su_table.specs.Edit.{EditsCanBeTakenBack};
ghost use Rattle.su_table.specs.Table.{ChangesOneTable};

/// Edits can be taken back: when what they overwrote is put back, the last one first, the tree is
/// the one before.
pub fn edits_can_be_taken_back()
    ensures { EditsCanBeTakenBack }
{}

/// An edit changes one principal's table at one number: so the digests of all others stay, and a
/// tree of digests is kept up to date by one change.
pub fn edits_change_one_table()
    ensures { ChangesOneTable }
{}

/// A byte within a file touches one block: what `Forest::write_at` may cost is then 36 hashes, and
/// one for each bit of the numbers of the file's blocks. That is 44 in a file of at most 256 blocks,
/// and 48 in one of at most 4,096.
pub fn a_byte_makes_few_hashes()
    ensures each { (bits : ℕ) → AByteMakesFewHashes bits (bits + 2 + hashes_of_inode) }
    ensures of_256_blocks { AByteMakesFewHashes 8 44 }
    ensures of_4096_blocks { AByteMakesFewHashes 12 48 }
{}
