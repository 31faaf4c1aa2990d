// Signatures of one key: as many as it has leaves, and where its store fails.
use crate::faults::{Fault, Mistake, check};
use crate::seen::{Seen, again};
use std::alloc::Global;
use su_bytes::Refusal;
use su_lms::{KeyStore, NoStore, Params, Signer};

/// What is signed.
const MESSAGE: &[u8] = b"what is signed";

/// How many leaves the keys of these rows have.
const LEAVES: u32 = 32;

/// How long a signature is with 8 bits a coefficient.
const LENGTH: usize = 1_292;

fn signer<S: KeyStore>(alloc: Global, store: S) -> Result<Signer<S>, Refusal> {
    Signer::generate(alloc, Params::new(5, 4)?, [1; 16], [7; 32], store)
}

/// Signs with each leaf of a key, and once more.
pub(crate) fn as_many_as_leaves(alloc: Global, seen: &mut Seen) -> Result<(), Fault> {
    let mut signer = signer(alloc, NoStore)?;
    for signed in 0..LEAVES {
        let left = LEAVES - signed;
        let signature = again!(seen, signer.left() == left, signer.sign(MESSAGE))?;
        check(is_good(&signer, &signature), Mistake::Signature)?;
        check(signer.left() == left - 1, Mistake::Leaves)?;
    }
    let more = again!(seen, signer.left() == 0, signer.sign(MESSAGE));
    check(more.err() == Some(Refusal::KeySpent), Mistake::Signature)?;
    check(signer.left() == 0, Mistake::Leaves)
}

/// Whether it is the signature of the message, of the right length, and of no other message.
fn is_good<S: KeyStore>(signer: &Signer<S>, signature: &[u8]) -> bool {
    let key = signer.public();
    let is_of_another = key.verify(b"what isn't signed", signature);
    signature.len() == LENGTH && key.verify(MESSAGE, signature) && !is_of_another
}

/// A store of which one call fails: the one of a number, from 1.
#[derive(Drop)]
struct FailingStore {
    /// The number of the call that fails, from now on; 0 where none does.
    left: u32,
    failures: u64,
}

impl KeyStore for FailingStore {
    ghost stores = { λ _ _ _. Unit {0} };

    ghost misses = { λ _ _ _. Unit {0} };

    ghost failure_count = { λ s. s.failures };

    fn store_next(&mut self, _q: u32) -> bool {
        let is_due = self.left == 1;
        self.left = self.left.saturating_sub(1);
        if is_due {
            self.failures = self.failures.saturating_add(1);
        }
        !is_due
    }

    fn failures(&self) -> u64 {
        self.failures
    }
}

/// Signs three times with a key of whose store one call fails, for one after the other, until there
/// is no such call.
pub(crate) fn where_a_store_fails(alloc: Global, seen: &mut Seen) -> Result<(), Fault> {
    for at in 1..LEAVES {
        let store = FailingStore {
            left: at,
            failures: 0,
        };
        let mut signer = signer(alloc, store)?;
        for left in [LEAVES, LEAVES - 1, LEAVES - 2] {
            let signature = sign(&mut signer, left, seen)?;
            check(is_good(&signer, &signature), Mistake::Signature)?;
        }
        check(signer.left() == LEAVES - 3, Mistake::Leaves)?;
        if signer.store().failures() == 0 {
            return check(at == 4, Mistake::Calls);
        }
    }
    Err(Fault::Wrong(Mistake::Calls))
}

/// Signs, and once more where the store fails or memory is refused.
fn sign(signer: &mut Signer<FailingStore>, left: u32, seen: &mut Seen) -> Result<Vec<u8>, Fault> {
    let signed = again!(seen, signer.left() == left, signer.sign(MESSAGE));
    match signed {
        Err(Refusal::KeyFileFault) => {
            check(signer.left() == left, Mistake::Leaves)?;
            Ok(again!(seen, signer.left() == left, signer.sign(MESSAGE))?)
        }
        signed => Ok(signed?),
    }
}
