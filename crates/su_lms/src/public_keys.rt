// Public keys, and the verification of signatures.
ghost use Rattle.std.specs.Prelude.{◌≡◌, ◌≤◌, ◌<◌, ◌+◌, ◌^◌, ◌++◌, ◌↔◌, ℕ, List, IsTrue, IsOk, IfOk, IfErr, is_ok, ◌&&◌, nat_le, length, take, drop};
ghost use Rattle.sha_lanes.specs.Run.{end_of, run_at};
ghost use Rattle.su_lms.specs.ParameterSets.{IsOneTimeType, IsTreeType, chain_count, height_of};
ghost use Rattle.su_lms.specs.Strings.{u32str};
ghost use Rattle.su_lms.specs.Signature.{AreEnds, IsPublicKey, is_public_key, IsSigned, HasShape, id_of, ots_of, signature_size, leaf_of, root_from};
ghost use Rattle.su_bytes.specs.declared.refusals.Refusal.TheVariants.{BadKey};

use crate::chains::{key_of_ends, set_signed_values};
use crate::digits::with_checksum;
use crate::one_time::message_hash;
use crate::parameters::{chain_count, height_of, leaf_count};
use crate::strings::{number_at, part_at, write_at};
use crate::trees::{leaf_value, parent_value};
use sha_lanes::{ChainRun, run_chains};
use std::marker::Model;
use su_bytes::Refusal;

/// A public key of any parameter set that RFC 8554 lists. Its model is its 56 bytes (Section 5.3).
#[derive(Clone, Copy, Debug, PartialEq, Eq)]
pub struct PublicKey {
    bytes: [u8; 56],
}

impl Model for PublicKey {
    ghost use Rattle.std.specs.Prelude.{ℕ, List};
    ghost use Rattle.su_lms.specs.Signature.{IsPublicKey};

    ghost Value = { List ℕ };

    ghost view = { λ key. key.bytes };

    ghost invariant = { λ key. IsPublicKey key.bytes };

    ghost inverse = { λ bytes. record { bytes = bytes } };
}

impl PublicKey {
    /// The key that the bytes spell. `BadKey` where they are not 56, or a type is not listed (RFC
    /// 8554, Section 5.3).
    pub fn parse(bytes: &[u8]) -> Result<PublicKey, Refusal>
        ensures accepted { IsOk result ↔ IsPublicKey bytes.now }
        ensures known { is_ok result ≡ is_public_key bytes.now }
        ensures value { IfOk result (λ key. key ≡ bytes.now) }
        ensures refused { IfErr result (λ e. e ≡ BadKey) }
    {
        if !is_public_key(bytes) {
            return Err(Refusal::BadKey);
        }
        let mut key = [0u8; 56];
        key.copy_from_slice(bytes);
        Ok(PublicKey { bytes: key })
    }

    // The key of those parts.
    pub(crate) fn of_parts(lms: u32, ots: u32, id: &[u8; 16], root: &[u8; 32]) -> PublicKey
        requires tree_type { IsTreeType lms }
        requires one_time_type { IsOneTimeType ots }
        ensures { result ≡ u32str lms ++ u32str ots ++ id.now ++ root.now }
    {
        let mut bytes = [0u8; 56];
        write_at(&mut bytes, 0, &lms.to_be_bytes());
        write_at(&mut bytes, 4, &ots.to_be_bytes());
        write_at(&mut bytes, 8, id);
        write_at(&mut bytes, 24, root);
        PublicKey { bytes }
    }

    /// The 56 bytes: LMS type, LM-OTS type, I, and the root of the tree (RFC 8554, Section 5.3).
    pub fn as_bytes(&self) -> &[u8; 56]
        ensures value { result.now ≡ self.now }
        ensures key { IsPublicKey result.now }
    {
        &self.bytes
    }

    /// Whether the message is signed under this key by this signature (RFC 8554, Section 5.4.2). It
    /// takes no memory.
    pub fn verify(&self, message: &[u8], signature: &[u8]) -> bool
        ensures { IsTrue result ↔ IsSigned self.now message.now signature.now }
    {
        let key = self.as_bytes();
        if !has_shape(key, signature) {
            return false;
        }
        let mut runs = [ChainRun::idle(); 265];
        let count = usize::from(chain_count(number_at(key, 4)));
        ends_at_root(&mut runs[..count], key, message, signature)
    }
}

// Whether the bytes are a public key: 56, of listed types.
fn is_public_key(bytes: &[u8]) -> bool
    ensures value { result ≡ is_public_key bytes.now }
    ensures key { IsTrue result ↔ IsPublicKey bytes.now }
{
    bytes.len() == 56 && is_tree_type(number_at(bytes, 0)) && is_one_time_type(number_at(bytes, 4))
}

fn is_tree_type(lms: u32) -> bool
    ensures value { result ≡ (nat_le 5 lms && nat_le lms 9) }
    ensures listed { IsTrue result ↔ IsTreeType lms }
{
    5 <= lms && lms <= 9
}

fn is_one_time_type(ots: u32) -> bool
    ensures value { result ≡ (nat_le 1 ots && nat_le ots 4) }
    ensures listed { IsTrue result ↔ IsOneTimeType ots }
{
    1 <= ots && ots <= 4
}

// Whether the signature of the message leads to the key's root, by its chains.
fn ends_at_root(runs: &mut [ChainRun], key: &[u8; 56], message: &[u8], signature: &[u8]) -> bool
    requires public_key { IsPublicKey key.now }
    requires shape { HasShape key.now signature.now }
    requires count { length runs.old ≡ chain_count (ots_of key.now) }
    requires few { length runs.old ≤ 265 }
    ensures { IsTrue result ↔ IsSigned key.now message.now signature.now }
{
    set_chains(runs, key, message, signature);
    run_chains(runs);
    leads_to_root(runs, key, signature)
}

/// Puts the chains of a signature of the message at its values.
pub(crate) fn set_chains(runs: &mut [ChainRun], key: &[u8; 56], message: &[u8], signature: &[u8])
    requires public_key { IsPublicKey key.now }
    requires shape { HasShape key.now signature.now }
    requires count { length runs.old ≡ chain_count (ots_of key.now) }
    requires few { length runs.old ≤ 265 }
    ensures { AreEnds key.now message.now signature.now (λ i. end_of (run_at runs.new i)) }
{
    let ots = number_at(key, 4);
    let id = id_of(key);
    let hash = message_hash(
        &id,
        number_at(signature, 0),
        &part_at(signature, 8),
        message,
    );
    set_signed_values(runs, ots, &id, &with_checksum(ots, &hash), signature);
}

/// Whether a signature leads to the key's root, by the ends of its chains.
pub(crate) fn leads_to_root(ends: &[ChainRun], key: &[u8; 56], signature: &[u8]) -> bool
    requires public_key { IsPublicKey key.now }
    requires shape { HasShape key.now signature.now }
    requires count { length ends.now ≡ chain_count (ots_of key.now) }
    ensures { (message : List ℕ)
        → AreEnds key.now message signature.now (λ i. (run_at ends.now i).value)
        → (IsTrue result ↔ IsSigned key.now message signature.now) }
{
    let ots = number_at(key, 4);
    let id = id_of(key);
    let one_time_key = key_of_ends(ots, &id, number_at(signature, 0), ends);
    let root = root_from(number_at(key, 0), ots, &id, signature, &one_time_key);
    root == part_at(key, 24)
}

// I, by which keys are told apart.
fn id_of(key: &[u8; 56]) -> [u8; 16]
    ensures { result ≡ id_of key.now }
{
    let mut id = [0u8; 16];
    id.copy_from_slice(&key[8..24]);
    id
}

/// Whether the signature has the key's length and types, and a leaf of its tree.
pub(crate) fn has_shape(key: &[u8; 56], signature: &[u8]) -> bool
    requires { IsPublicKey key.now }
    ensures { IsTrue result ↔ HasShape key.now signature.now }
{
    let lms = number_at(key, 0);
    let ots = number_at(key, 4);
    let values_end = 40 + 32 * usize::from(chain_count(ots));
    if signature.len() != values_end + 4 + 32 * height_of(lms) as usize {
        return false;
    }
    number_at(signature, 4) == ots
        && number_at(signature, values_end) == lms
        && number_at(signature, 0) < leaf_count(lms)
}

// The root that the one-time public key of the signature's leaf leads to.
fn root_from(lms: u32, ots: u32, id: &[u8; 16], signature: &[u8], key: &[u8; 32]) -> [u8; 32]
    requires tree_type { IsTreeType lms }
    requires one_time_type { IsOneTimeType ots }
    requires size { length signature.now ≡ signature_size lms ots }
    requires leaf { leaf_of signature.now < 2 ^ height_of lms }
    ensures { result ≡ root_from lms ots id.now signature.now key.now }
{
    let leaf = leaf_count(lms) + number_at(signature, 0);
    let path = 44 + 32 * usize::from(chain_count(ots));
    let mut value = leaf_value(id, leaf, key);
    for level in 0..height_of(lms) {
        let sibling = part_at(signature, path + 32 * level as usize);
        value = parent_value(id, leaf >> level, &sibling, &value);
    }
    value
}
