// The file of a vault whose records are taken up now.
ghost use Rattle.std.specs.Prelude.{◌≡◌, ◌<◌, ◌+◌, ◌^◌, ◌++◌, ◌∷◌, [], IsTrue, List, ℕ, Some, slice_get, IfOk, OnErr, OnOk};
ghost use Rattle.su_keeper.specs.Kept.{KeptRecord};
ghost use Rattle.su_vault.specs.Records.{KeepsRecords, found_alone};

use su_vault::{Volume, VolumeFault};

/// Whether the record of a number has these bytes.
fn is_record<V: Volume>(file: &mut V, number: u32, bytes: &[u8]) -> Result<bool, V::Fault>
    ensures begun { (records : List KeptRecord) → V.begins file.old records
        → V.begins file.new records }
    ensures counted { (records : List KeptRecord) → V.counts file.old number records
        → OnOk result (V.counts file.new number records) }
    ensures found { IfOk result (λ is. IsTrue is → (records : List KeptRecord)
        → V.counts file.new number records
        → V.counts file.new (number + 1) (records ++ found_alone bytes.now ∷ [])) }
    ensures shown { OnOk result (KeepsRecords V.shows file.old file.new) }
    ensures clean { OnOk result (V.is_clean file.new → V.is_clean file.old) }
    ensures at { (commits : List (List ℕ)) → V.shows file.old commits → V.is_clean file.new
        → IfOk result (λ is. IsTrue is → slice_get commits number ≡ Some bytes.now) }
    ensures same { V.count file.new ≡ V.count file.old }
{
    match file.record(number)? {
        Some(found) => Ok(found.as_slice() == bytes),
        None => Ok(false),
    }
}

/// Takes the record of this number for one that stands in the book, and returns how many do then.
/// `OtherRecord` where it isn't this one.
pub(crate) fn keep_found<V: Volume>(
    file: &mut V,
    number: u32,
    commit: &[u8],
) -> Result<u32, V::Fault>
    requires room { number + 1 < 2 ^ 32 }
    ensures begun { (records : List KeptRecord) → V.begins file.old records
        → V.begins file.new records }
    ensures kept { (records : List KeptRecord) → V.counts file.old number records
        → IfOk result (λ n. V.counts file.new n (records ++ found_alone commit.now ∷ [])) }
    ensures shown { OnOk result (KeepsRecords V.shows file.old file.new) }
    ensures clean { OnOk result (V.is_clean file.new → V.is_clean file.old) }
    ensures at { (commits : List (List ℕ)) → V.shows file.old commits → V.is_clean file.new
        → OnOk result (slice_get commits number ≡ Some commit.now) }
    ensures next { IfOk result (λ n. n ≡ number + 1) }
    ensures same { V.count file.new ≡ V.count file.old }
{
    if !is_record(file, number, commit)? {
        return Err(V::fault_for(VolumeFault::OtherRecord(number)));
    }
    Ok(number + 1)
}
