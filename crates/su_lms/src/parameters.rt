// The parameter sets, by their type numbers.
ghost use Rattle.std.specs.Prelude.{◌≡◌, ◌≤◌, ◌↔◌, ◌^◌, ◌-◌, ◌+◌, ◌*◌, IfOk, IsOk, IfErr};
ghost use Rattle.su_lms.specs.ParameterSets.{IsOneTimeType, IsTreeType, width_of, chain_count, checksum_shift, height_of, CanBeMade};
ghost use Rattle.su_lms.specs.PrivateKey.{few_of};
ghost use Rattle.su_bytes.specs.declared.refusals.Refusal.TheVariants.{BadKey};

use su_bytes::Refusal;

/// The parameter set of a key that can be made here, by the type numbers of RFC 8554, Sections 4.1
/// and 5.1.
#[derive(Clone, Copy, Debug, PartialEq, Eq)]
pub struct Params {
    /// 5 for a tree of 32 leaves, 6 for one of 1,024.
    pub lms: u32,
    /// 3 for coefficients of 4 bits, 4 for 8 bits: shorter signatures, more hashes.
    pub ots: u32,
    pub ghost listed: { CanBeMade lms ots },
}

impl Params {
    /// The parameter set of these type numbers. `BadKey` for others than 5 and 6, with 3 and 4.
    pub fn new(lms: u32, ots: u32) -> Result<Params, Refusal>
        ensures accepted { IsOk result ↔ CanBeMade lms ots }
        ensures value { IfOk result (λ params. (params.lms ≡ lms) × (params.ots ≡ ots)) }
        ensures refused { IfErr result (λ e. e ≡ BadKey) }
    {
        if (5..=6).contains(&lms) && (3..=4).contains(&ots) {
            Ok(Params { lms, ots })
        } else {
            Err(Refusal::BadKey)
        }
    }

    /// How many leaves the tree has: 32 or 1,024.
    pub fn leaf_count(self) -> u32
        ensures { result ≡ 2 ^ height_of self.lms }
    {
        leaf_count(self.lms)
    }

    /// How many of its leaves are the last few: 4 of 32, 64 of 1,024.
    pub fn last_few(self) -> u32
        ensures { result ≡ few_of (2 ^ height_of self.lms) }
    {
        (self.leaf_count() / 8).min(64)
    }
}

/// The width of a coefficient in bits, 1 to 8 (RFC 8554, Section 4.1).
#[tactic(auto, unfolding(crate::specs::ParameterSets::width_of))]
pub fn width_of(ots: u32) -> u32
    requires { IsOneTimeType ots }
    ensures value { result ≡ width_of ots }
    ensures range { (1 ≤ result) × (result ≤ 8) }
{
    match ots {
        1 => 1,
        2 => 2,
        3 => 4,
        _ => 8,
    }
}

/// How many leaves the tree has, 32 to 33,554,432 (RFC 8554, Section 5.1).
pub fn leaf_count(lms: u32) -> u32
    requires { IsTreeType lms }
    ensures value { result ≡ 2 ^ height_of lms }
    ensures range { result ≤ 2 ^ 25 }
{
    match lms {
        5 => 32,
        6 => 1_024,
        7 => 32_768,
        8 => 1_048_576,
        _ => 33_554_432,
    }
}

/// How many steps a whole chain has, 1 to 255.
#[tactic(auto, unfolding(crate::specs::ParameterSets::width_of))]
pub fn step_count(ots: u32) -> u8
    requires { IsOneTimeType ots }
    ensures { result ≡ 2 ^ width_of ots - 1 }
{
    match ots {
        1 => 1,
        2 => 3,
        3 => 15,
        _ => 255,
    }
}

/// How many chains a one-time key has, 34 to 265 (RFC 8554, Section 4.1).
#[tactic(auto, unfolding(crate::specs::ParameterSets::chain_count))]
pub fn chain_count(ots: u32) -> u16
    requires { IsOneTimeType ots }
    ensures value { result ≡ chain_count ots }
    ensures range { (1 ≤ result) × (result ≤ 265) }
    ensures made { 3 ≤ ots → result ≤ 67 }
{
    match ots {
        1 => 265,
        2 => 133,
        3 => 67,
        _ => 34,
    }
}

/// How far the sum in a checksum is shifted to the left, 0 to 7 bits (RFC 8554, Section 4.1).
#[tactic(auto, unfolding(crate::specs::ParameterSets::checksum_shift))]
pub fn checksum_shift(ots: u32) -> u32
    requires { IsOneTimeType ots }
    ensures value { result ≡ checksum_shift ots }
    ensures range { result ≤ 7 }
{
    match ots {
        1 => 7,
        2 => 6,
        3 => 4,
        _ => 0,
    }
}

/// The height of the tree, 5 to 25 (RFC 8554, Section 5.1).
pub fn height_of(lms: u32) -> u32
    requires { IsTreeType lms }
    ensures value { result ≡ height_of lms }
    ensures range { result ≤ 25 }
{
    5 * (lms - 4)
}
