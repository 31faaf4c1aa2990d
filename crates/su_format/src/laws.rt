// What holds of the parts of formats.
ghost use Rattle.std.specs.Prelude.{ℕ, List};
ghost use Rattle.su_format.specs.Format.{IsLawful};
ghost use Rattle.su_format.specs.Part.{u8_part, u16_part, u32_part, u64_part, bytes_part, rest_part, digest_part, mark_part, user_part, group_part, inum_part, principal_part, file_id_part, name_part, kind_part};

/// Each part has one spelling for each value, and none begins the spelling of another value: bytes
/// begin with at most one value of a part, and else are refused at one place.
pub fn parts_are_lawful()
    ensures u8 { IsLawful u8_part }
    ensures u16 { IsLawful u16_part }
    ensures u32 { IsLawful u32_part }
    ensures u64 { IsLawful u64_part }
    ensures bytes { (n : ℕ) → IsLawful (bytes_part n) }
    ensures rest { IsLawful rest_part }
    ensures digest { IsLawful digest_part }
    ensures mark { (mark : List ℕ) → IsLawful (mark_part mark) }
    ensures user { IsLawful user_part }
    ensures group { IsLawful group_part }
    ensures inum { IsLawful inum_part }
    ensures principal { IsLawful principal_part }
    ensures file_id { IsLawful file_id_part }
    ensures name { IsLawful name_part }
    ensures kind { IsLawful kind_part }
{}
