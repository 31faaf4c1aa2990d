// Under which keys records and items lie.
ghost use Rattle.std.specs.Prelude.{◌≡◌, List, map, IfOk};
ghost use Rattle.sha2.specs.Sha256.{sha256};
ghost use Rattle.su_engine_keeper.specs.Keys.{record_key, item_key};
ghost use Rattle.su_engine.specs.Pairs.{pairs_of};

use sha2::Sha256;
use std::alloc::{AllocError, Global};
use su_bytes::Digest;
use su_engine::Pair;

const RECORDS: &[u8] = b"su/r/";

const ITEMS: &[u8] = b"su/i/";

/// Makes the key of the record of a number.
pub fn record_key(alloc: Global, number: u64) -> Result<Vec<u8>, AllocError>
    ensures { IfOk result (λ key. key.items ≡ record_key number) }
{
    let mut key = Vec::from_slice(alloc, RECORDS)?;
    key.extend_from_slice(&number.to_be_bytes())?;
    Ok(key)
}

/// Makes the key of the item of a digest.
pub fn item_key(alloc: Global, digest: &Digest) -> Result<Vec<u8>, AllocError>
    ensures { IfOk result (λ key. key.items ≡ item_key digest.now) }
{
    let mut key = Vec::from_slice(alloc, ITEMS)?;
    key.extend_from_slice(digest.as_bytes())?;
    Ok(key)
}

/// The digest of bytes.
pub(crate) fn digest_of(bytes: &[u8]) -> Digest
    ensures { result ≡ sha256 bytes.now }
{
    Digest::new(<Sha256 as sha2::Digest>::digest(bytes))
}

/// The record of a number under its key.
pub(crate) fn record_pair(alloc: Global, number: u64, commit: &[u8]) -> Result<Pair, AllocError>
    ensures key { IfOk result (λ pair. pair.key.items ≡ record_key number) }
    ensures value { IfOk result (λ pair. pair.value.items ≡ commit.now) }
{
    let key = record_key(alloc, number)?;
    let value = Vec::from_slice(alloc, commit)?;
    Ok(Pair { key, value })
}

/// Items, each under the key of its digest.
pub(crate) fn item_pairs(alloc: Global, items: &[Vec<u8>]) -> Result<Vec<Pair>, AllocError>
    ensures { IfOk result (λ pairs. pairs_of pairs.items
        ≡ map (λ item. (item_key (sha256 item.items), item.items)) items.now) }
{
    let mut pairs = Vec::new(alloc);
    for item in items {
        let key = item_key(alloc, &digest_of(item.as_slice()))?;
        let value = Vec::from_slice(alloc, item.as_slice())?;
        pairs.push(Pair { key, value })?;
    }
    Ok(pairs)
}
