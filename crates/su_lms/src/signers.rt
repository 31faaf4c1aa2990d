// Signers: a private key with its tree, which uses each leaf at most once.
ghost use Rattle.std.specs.Prelude.{◌≡◌, ◌≢◌, ◌≤◌, ◌<◌, ◌+◌, ◌*◌, ◌-◌, ◌^◌, ◌++◌, ◌⊎◌, ◌↔◌, [], ℕ, IfOk, OnOk, IfErr, OnErr, IsErr, IsErrOf, length, vec_len, vec_capacity, slice_index_or};
ghost use Rattle.sha_lanes.specs.Run.{run_at};
ghost use Rattle.su_lms.specs.ParameterSets.{chain_count, height_of, CanBeMade};
ghost use Rattle.su_lms.specs.Strings.{joined};
ghost use Rattle.su_lms.specs.Signature.{IsSigned, leaf_of, signature_size};
ghost use Rattle.su_lms.specs.PrivateKey.{leaf_count, key_of, one_time_signature, signature_of, signed_value, path_at};
ghost use Rattle.su_lms.specs.KeyFile.{made_key, private_key_of};
ghost use Rattle.su_lms.specs.NodeTable.{IsNodeTable};
ghost use Rattle.su_bytes.specs.declared.refusals.Refusal.TheVariants.{BadKey, KeyFileFault, KeySpent, NoMemory};

use crate::chains::{run_signed, set_private_values};
use crate::digits::with_checksum;
use crate::key_files::KeyFile;
use crate::one_time::{message_hash, randomizer};
use crate::parameters::{Params, chain_count, height_of, leaf_count};
use crate::public_keys::PublicKey;
use crate::stores::KeyStore;
use crate::trees::{grow, grow_in_threads, sibling_of};
use sha_lanes::ChainRun;
use std::alloc::Global;
use std::marker::Model;
use std::thread::Threads;
use su_bytes::Refusal;

/// A private key that signs with each leaf at most once, lowest first (RFC 8554, Section 5.4.1). It
/// keeps its tree in memory, 64 bytes for each leaf.
#[derive(Drop)]
pub struct Signer<S: KeyStore> {
    file: KeyFile,
    nodes: Vec<[u8; 32]>,
    store: S,
}

impl<S: KeyStore> Model for Signer<S> {
    ghost use Rattle.su_lms.specs.Signer.{SignerState};
    ghost use Rattle.su_lms.specs.KeyFile.{private_key_of};
    ghost use Rattle.su_lms.specs.NodeTable.{IsNodeTable};

    ghost Value = { SignerState S };

    ghost view = { λ s. record { key = private_key_of s.file; next = s.file.next; store = s.store } };

    ghost invariant = { λ s. IsNodeTable (private_key_of s.file) s.nodes.items };
}

impl<S: KeyStore> Signer<S> {
    /// The signer of a new key, made from I and SEED. Only `NoMemory` can come.
    pub fn generate(
        alloc: Global,
        params: Params,
        id: [u8; 16],
        seed: [u8; 32],
        store: S,
    ) -> Result<Signer<S>, Refusal>
        ensures key { IfOk result (λ signer. signer.key ≡ made_key params id seed) }
        ensures next { IfOk result (λ signer. signer.next ≡ 0) }
        ensures store { IfOk result (λ signer. signer.store ≡ store) }
        ensures refused { IfErr result (λ e. e ≡ NoMemory) }
    {
        Signer::resume(alloc, params, id, seed, 0, store)
    }

    /// The same, with the leaves of its tree made on all cores. Only `NoMemory` can come.
    pub fn generate_in_threads<R: Threads + Sync>(
        rt: &R,
        alloc: Global,
        params: Params,
        id: [u8; 16],
        seed: [u8; 32],
        store: S,
    ) -> Result<Signer<S>, Refusal>
        ensures key { IfOk result (λ signer. signer.key ≡ made_key params id seed) }
        ensures next { IfOk result (λ signer. signer.next ≡ 0) }
        ensures store { IfOk result (λ signer. signer.store ≡ store) }
        ensures refused { IfErr result (λ e. e ≡ NoMemory) }
    {
        Signer::resume_in_threads(rt, alloc, params, id, seed, 0, store)
    }

    /// The signer of a key of which the leaves before `next` may have signed. `BadKey` where `next`
    /// is above the number of leaves; else only `NoMemory` can come.
    pub fn resume(
        alloc: Global,
        params: Params,
        id: [u8; 16],
        seed: [u8; 32],
        next: u32,
        store: S,
    ) -> Result<Signer<S>, Refusal>
        ensures key { IfOk result (λ signer. signer.key ≡ made_key params id seed) }
        ensures next { IfOk result (λ signer. signer.next ≡ next) }
        ensures store { IfOk result (λ signer. signer.store ≡ store) }
        ensures bad { IsErrOf result BadKey ↔ (2 ^ height_of params.lms < next) }
        ensures refused { IfErr result (λ e. (e ≡ BadKey) ⊎ (e ≡ NoMemory)) }
    {
        let file = kept_key(params, id, seed, next)?;
        let nodes = grow(alloc, &file)?;
        Ok(Signer { file, nodes, store })
    }

    /// The same, with the leaves of its tree made on all cores. `BadKey` where `next` is above the
    /// number of leaves; else only `NoMemory` can come.
    pub fn resume_in_threads<R: Threads + Sync>(
        rt: &R,
        alloc: Global,
        params: Params,
        id: [u8; 16],
        seed: [u8; 32],
        next: u32,
        store: S,
    ) -> Result<Signer<S>, Refusal>
        ensures key { IfOk result (λ signer. signer.key ≡ made_key params id seed) }
        ensures next { IfOk result (λ signer. signer.next ≡ next) }
        ensures store { IfOk result (λ signer. signer.store ≡ store) }
        ensures bad { IsErrOf result BadKey ↔ (2 ^ height_of params.lms < next) }
        ensures refused { IfErr result (λ e. (e ≡ BadKey) ⊎ (e ≡ NoMemory)) }
    {
        let file = kept_key(params, id, seed, next)?;
        let nodes = grow_in_threads(rt, alloc, &file)?;
        Ok(Signer { file, nodes, store })
    }

    /// The public key (RFC 8554, Section 5.3).
    pub fn public(&self) -> PublicKey
        ensures { result ≡ key_of self.now.key }
    {
        let file = &self.file;
        PublicKey::of_parts(file.params.lms, file.params.ots, &file.id, &self.nodes[1])
    }

    /// How many leaves have not signed.
    pub fn left(&self) -> u32
        ensures { result + self.now.next ≡ leaf_count self.now.key }
    {
        leaf_count(self.file.params.lms) - self.file.next
    }

    /// The store, as it is now.
    pub fn store(&self) -> &S
        ensures { result.now ≡ self.now.store }
    {
        &self.store
    }

    /// Signs with the next leaf, after the store has kept the number of the one behind it.
    /// `KeySpent` where each leaf has signed; then `NoMemory`; then `KeyFileFault` where the store
    /// failed. After a refusal nothing was signed, and the next leaf is the same.
    pub fn sign(&mut self, message: &[u8]) -> Result<Vec<u8>, Refusal>
        ensures signature { IfOk result (λ signature. signature.items
            ≡ signature_of self.old.key self.old.next message.now) }
        ensures signed { IfOk result (λ signature. IsSigned (key_of self.old.key) message.now signature.items) }

        ensures leaf { IfOk result (λ signature. leaf_of signature.items ≡ self.old.next) }

        // Its number was stored first, and the leaf is never used again.
        ensures stored { OnOk result (S.stores self.old.store (self.old.next + 1) self.new.store) }
        ensures used { OnOk result (self.new.next ≡ self.old.next + 1) }
        ensures key { self.new.key ≡ self.old.key }

        ensures spent { IsErrOf result KeySpent ↔ (self.old.next ≡ leaf_count self.old.key) }
        ensures fault { IsErrOf result KeyFileFault → S.failure_count self.old.store < 2 ^ 64 - 1
            → S.failure_count self.old.store < S.failure_count self.new.store }
        ensures missed { IsErrOf result KeyFileFault
            → S.misses self.old.store (self.old.next + 1) self.new.store }
        ensures unused { OnErr result (self.new.next ≡ self.old.next) }
        ensures untouched { IfErr result (λ e. e ≢ KeyFileFault → self.new.store ≡ self.old.store) }
        ensures refused { IfErr result (λ e. (e ≡ KeySpent) ⊎ (e ≡ NoMemory) ⊎ (e ≡ KeyFileFault)) }
    {
        let q = self.file.next;
        if leaf_count(self.file.params.lms) <= q {
            return Err(Refusal::KeySpent);
        }
        let size = 44
            + 32 * usize::from(chain_count(self.file.params.ots))
            + 32 * height_of(self.file.params.lms) as usize;
        let mut signature = Vec::with_capacity(*self.nodes.allocator(), size)?;
        if !self.store.store_next(q + 1) {
            return Err(Refusal::KeyFileFault);
        }
        self.file.next = q + 1;
        append(&mut signature, &q.to_be_bytes());
        append_one_time(&mut signature, &self.file, q, message);
        append(&mut signature, &self.file.params.lms.to_be_bytes());
        append_path(&mut signature, &self.file, &self.nodes, q);
        Ok(signature)
    }
}

// The key with the leaf that signs next. `BadKey` where that is above the number of leaves.
fn kept_key(params: Params, id: [u8; 16], seed: [u8; 32], next: u32) -> Result<KeyFile, Refusal>
    ensures key { IfOk result (λ file. private_key_of file ≡ made_key params id seed) }
    ensures next { IfOk result (λ file. file.next ≡ next) }
    ensures bad { IsErr result ↔ (2 ^ height_of params.lms < next) }
    ensures refused { IfErr result (λ e. e ≡ BadKey) }
{
    if leaf_count(params.lms) < next {
        return Err(Refusal::BadKey);
    }
    Ok(KeyFile {
        params,
        id,
        seed,
        next,
    })
}

// Appends bytes for which there is room.
fn append(out: &mut Vec<u8>, bytes: &[u8])
    requires { vec_len out.old + length bytes.now ≤ vec_capacity out.old }
    ensures items { out.new.items ≡ out.old.items ++ bytes.now }
    ensures len { vec_len out.new ≡ vec_len out.old + length bytes.now }
    ensures room { vec_capacity out.old ≤ vec_capacity out.new }
{
    let _ = out.extend_from_slice(bytes);
}

// Appends the one-time signature of the message by leaf q (RFC 8554, Section 4.5).
fn append_one_time(out: &mut Vec<u8>, file: &KeyFile, q: u32, message: &[u8])
    requires leaf { q < 2 ^ height_of file.now.params.lms }
    requires room { vec_len out.old + (36 + 32 * chain_count file.now.params.ots) ≤ vec_capacity out.old }
    ensures items { out.new.items
        ≡ out.old.items ++ one_time_signature (private_key_of file.now) q message.now }
    ensures len { vec_len out.new ≡ vec_len out.old + (36 + 32 * chain_count file.now.params.ots) }
    ensures room { vec_capacity out.old ≤ vec_capacity out.new }
{
    let ots = file.params.ots;
    let randomizer = randomizer(&file.seed, q);
    let digits = with_checksum(ots, &message_hash(&file.id, q, &randomizer, message));
    append(out, &ots.to_be_bytes());
    append(out, &randomizer);
    let mut runs = [ChainRun::idle(); 67];
    let count = usize::from(chain_count(ots));
    append_values(out, &mut runs[..count], file, q, &digits);
}

// Appends the values of the chains of leaf q, as far as the coefficients say (RFC 8554, Section 4.5).
fn append_values(
    out: &mut Vec<u8>,
    runs: &mut [ChainRun],
    file: &KeyFile,
    q: u32,
    digits: &[u8; 34],
)
    requires leaf { q < 2 ^ 25 }
    requires count { length runs.old ≡ chain_count file.now.params.ots }
    requires few { length runs.old ≤ 67 }
    requires some { 1 ≤ length runs.old }
    requires room { vec_len out.old + 32 * length runs.old ≤ vec_capacity out.old }
    ensures items { let key = private_key_of file.now in
        out.new.items ≡ out.old.items ++ joined (chain_count key.ots) (signed_value key q digits.now) }
    ensures len { vec_len out.new ≡ vec_len out.old + 32 * length runs.old }
    ensures room { vec_capacity out.old ≤ vec_capacity out.new }
{
    set_private_values(runs, &file.id, &file.seed, q, runs.len());
    run_signed(runs, file.params.ots, digits);
    append_ends(out, runs);
}

// Appends the values at which the chains end.
fn append_ends(out: &mut Vec<u8>, ends: &[ChainRun])
    requires { vec_len out.old + 32 * length ends.now ≤ vec_capacity out.old }
    ensures items { out.new.items
        ≡ out.old.items ++ joined (length ends.now) (λ i. (run_at ends.now i).value) }
    ensures len { vec_len out.new ≡ vec_len out.old + 32 * length ends.now }
    ensures room { vec_capacity out.old ≤ vec_capacity out.new }
{
    for end in ends {
        append(out, &end.value);
    }
}

// Appends the siblings on the way from leaf q to the root (RFC 8554, Section 5.4.1).
fn append_path(out: &mut Vec<u8>, file: &KeyFile, nodes: &[[u8; 32]], q: u32)
    requires table { IsNodeTable (private_key_of file.now) nodes.now }
    requires leaf { q < 2 ^ height_of file.now.params.lms }
    requires room { vec_len out.old + 32 * height_of file.now.params.lms ≤ vec_capacity out.old }
    ensures { out.new.items ≡ out.old.items ++ joined (height_of file.now.params.lms) (path_at (private_key_of file.now) q) }
{
    let leaf = leaf_count(file.params.lms) + q;
    for level in 0..height_of(file.params.lms) {
        let sibling = sibling_of(leaf >> level);
        append(out, &nodes[sibling as usize]);
    }
}
