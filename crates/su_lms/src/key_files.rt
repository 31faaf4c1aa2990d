// Key files.
ghost use Rattle.std.specs.Prelude.{◌≡◌, ◌≤◌, ◌^◌, ℕ, IfOk, IfErr, IsOkAnd};
ghost use Rattle.su_lms.specs.ParameterSets.{height_of};
ghost use Rattle.su_bytes.specs.declared.refusals.Refusal.TheVariants.{BadKey};

use crate::parameters::{Params, leaf_count};
use crate::strings::{number_at, part_at, write_at};
use su_bytes::Refusal;

// The bytes `SK01`, as a number.
const MARK: u32 = 0x534b_3031;

/// A private key and the leaf that signs next, as a file keeps them.
#[derive(Clone, Copy)]
pub struct KeyFile {
    /// The parameter set.
    pub params: Params,
    /// I, by which keys are told apart (RFC 8554, Section 5.3).
    pub id: [u8; 16],
    /// SEED, from which each private value is made (RFC 8554, Appendix A). It is secret.
    pub seed: [u8; 32],
    /// The leaf that signs next, from 0; the number of leaves where each has signed.
    pub next: u32,
    pub ghost in_tree: { next ≤ 2 ^ height_of params.lms },
}

impl KeyFile {
    ghost use Rattle.su_lms.specs.PrivateKey.{PrivateKey};
    ghost use Rattle.su_lms.specs.KeyFile.{private_key_of, key_file_bytes, IsKept};

    /// The 64 bytes: `SK01`, LMS type, LM-OTS type, I, SEED, next leaf, with numbers of four bytes,
    /// high byte first.
    pub fn encode(&self) -> [u8; 64]
        ensures { result ≡ key_file_bytes (private_key_of self.now) self.now.next }
    {
        let mut bytes = [0u8; 64];
        write_at(&mut bytes, 0, &MARK.to_be_bytes());
        write_at(&mut bytes, 4, &self.params.lms.to_be_bytes());
        write_at(&mut bytes, 8, &self.params.ots.to_be_bytes());
        write_at(&mut bytes, 12, &self.id);
        write_at(&mut bytes, 28, &self.seed);
        write_at(&mut bytes, 60, &self.next.to_be_bytes());
        bytes
    }

    /// What the bytes spell. `BadKey` where they are no key file: another length, other first
    /// bytes, types that are not made here, or a next leaf above the number of leaves.
    pub fn decode(bytes: &[u8]) -> Result<KeyFile, Refusal>
        // What is read is spelled so.
        ensures found { IfOk result (λ file. bytes.now
            ≡ key_file_bytes (private_key_of file) file.next) }
        // What is spelled so is read.
        ensures only { (key : PrivateKey) (next : ℕ) → IsKept key next
            → bytes.now ≡ key_file_bytes key next
            → IsOkAnd result (λ file. (private_key_of file ≡ key) × (file.next ≡ next)) }
        ensures refused { IfErr result (λ e. e ≡ BadKey) }
    {
        if bytes.len() != 64 || number_at(bytes, 0) != MARK {
            return Err(Refusal::BadKey);
        }
        let params = Params::new(number_at(bytes, 4), number_at(bytes, 8))?;
        let next = number_at(bytes, 60);
        if leaf_count(params.lms) < next {
            return Err(Refusal::BadKey);
        }
        let mut id = [0u8; 16];
        id.copy_from_slice(&bytes[12..28]);
        Ok(KeyFile {
            params,
            id,
            seed: part_at(bytes, 28),
            next,
        })
    }
}
