// What is asked of etcd.
ghost use Rattle.std.specs.Prelude.{◌≡◌, ◌++◌, codes, flat_map, IfOk, OnOk};
ghost use Rattle.su_engine.specs.Pairs.{pairs_of};
ghost use Rattle.su_gateway.specs.Requests.{spelled, absent_text, led_text, put_text, holds_text, conditions_text, operations_text, lead_put_text, create_text, compare_text, range_text, page_text, grant_text, lease_text, lead_text, head_bytes, request_bytes};

use base64::engine::general_purpose::STANDARD;
use itoa::Buffer;
use std::alloc::{AllocError, Global};
use su_engine::Pair;

/// The key of the server that leads.
const LEAD: &[u8] = b"su/lead";

/// Spells a byte string behind a text.
fn spell(alloc: Global, text: &mut Vec<u8>, bytes: &[u8]) -> Result<(), AllocError>
    ensures { OnOk result (text.new.items ≡ text.old.items ++ spelled bytes.now) }
{
    let spelled = STANDARD.encode(alloc, bytes)?;
    text.extend_from_slice(spelled.as_bytes())
}

/// Makes the comparison that a key holds nothing.
fn absent_text(alloc: Global, key: &[u8]) -> Result<Vec<u8>, AllocError>
    ensures { IfOk result (λ text. text.items ≡ absent_text key.now) }
{
    let head = b"{\"result\":\"EQUAL\",\"target\":\"VERSION\",\"version\":\"0\",\"key\":\"";
    let mut text = Vec::from_slice(alloc, head)?;
    spell(alloc, &mut text, key)?;
    text.extend_from_slice(b"\"}")?;
    Ok(text)
}

/// Makes the comparison that the key of the lead was made at this revision.
fn led_text(alloc: Global, lead: u64) -> Result<Vec<u8>, AllocError>
    ensures { IfOk result (λ text. text.items ≡ led_text lead) }
{
    let mut digits = Buffer::new();
    let head = b"{\"result\":\"EQUAL\",\"target\":\"CREATE\",\"key\":\"";
    let mut text = Vec::from_slice(alloc, head)?;
    spell(alloc, &mut text, LEAD)?;
    text.extend_from_slice(b"\",\"create_revision\":\"")?;
    text.extend_from_slice(digits.format(lead).as_bytes())?;
    text.extend_from_slice(b"\"}")?;
    Ok(text)
}

/// Makes the operation that puts a pair.
fn put_text(alloc: Global, pair: &Pair) -> Result<Vec<u8>, AllocError>
    ensures { IfOk result (λ text.
        text.items ≡ put_text (pair.now.key.items, pair.now.value.items)) }
{
    let mut text = Vec::from_slice(alloc, b"{\"requestPut\":{\"key\":\"")?;
    spell(alloc, &mut text, pair.key.as_slice())?;
    text.extend_from_slice(b"\",\"value\":\"")?;
    spell(alloc, &mut text, pair.value.as_slice())?;
    text.extend_from_slice(b"\"}}")?;
    Ok(text)
}

/// Makes the comparison that a key holds its value.
fn holds_text(alloc: Global, pair: &Pair) -> Result<Vec<u8>, AllocError>
    ensures { IfOk result (λ text.
        text.items ≡ holds_text (pair.now.key.items, pair.now.value.items)) }
{
    let head = b"{\"result\":\"EQUAL\",\"target\":\"VALUE\",\"key\":\"";
    let mut text = Vec::from_slice(alloc, head)?;
    spell(alloc, &mut text, pair.key.as_slice())?;
    text.extend_from_slice(b"\",\"value\":\"")?;
    spell(alloc, &mut text, pair.value.as_slice())?;
    text.extend_from_slice(b"\"}")?;
    Ok(text)
}

/// Makes the operations that put pairs, each behind a comma.
fn puts_text(alloc: Global, pairs: &[Pair]) -> Result<Vec<u8>, AllocError>
    ensures { IfOk result (λ text.
        text.items ≡ flat_map (λ pair. codes "," ++ put_text pair) (pairs_of pairs.now)) }
{
    let mut text = Vec::new(alloc);
    for pair in pairs {
        let put = put_text(alloc, pair)?;
        text.extend_from_slice(b",")?;
        text.extend_from_slice(put.as_slice())?;
    }
    Ok(text)
}

/// Makes the comparisons that keys hold their values, each behind a comma.
fn all_hold_text(alloc: Global, pairs: &[Pair]) -> Result<Vec<u8>, AllocError>
    ensures { IfOk result (λ text.
        text.items ≡ flat_map (λ pair. codes "," ++ holds_text pair) (pairs_of pairs.now)) }
{
    let mut text = Vec::new(alloc);
    for pair in pairs {
        let holds = holds_text(alloc, pair)?;
        text.extend_from_slice(b",")?;
        text.extend_from_slice(holds.as_slice())?;
    }
    Ok(text)
}

/// Makes the conditions of a make: the key holds nothing, and the key of the lead was made at this
/// revision.
fn conditions_text(alloc: Global, lead: u64, key: &[u8]) -> Result<Vec<u8>, AllocError>
    ensures { IfOk result (λ text. text.items ≡ conditions_text lead key.now) }
{
    let led = led_text(alloc, lead)?;
    let mut text = absent_text(alloc, key)?;
    text.extend_from_slice(b",")?;
    text.extend_from_slice(led.as_slice())?;
    Ok(text)
}

/// Makes the operations of a make: a pair is put, and others beside it.
fn operations_text(alloc: Global, first: &Pair, beside: &[Pair]) -> Result<Vec<u8>, AllocError>
    ensures { IfOk result (λ text. text.items ≡ operations_text
        (first.now.key.items, first.now.value.items) (pairs_of beside.now)) }
{
    let puts = puts_text(alloc, beside)?;
    let mut text = put_text(alloc, first)?;
    text.extend_from_slice(puts.as_slice())?;
    Ok(text)
}

/// Makes the request that a key hold a value, and others theirs beside it, if it holds none and the
/// key of the lead was made at this revision.
pub fn create_text(
    alloc: Global,
    lead: u64,
    first: &Pair,
    beside: &[Pair],
) -> Result<Vec<u8>, AllocError>
    ensures { IfOk result (λ text. text.items
        ≡ create_text lead (first.now.key.items, first.now.value.items) (pairs_of beside.now)) }
{
    let conditions = conditions_text(alloc, lead, first.key.as_slice())?;
    let operations = operations_text(alloc, first, beside)?;
    let mut text = Vec::from_slice(alloc, b"{\"compare\":[")?;
    text.extend_from_slice(conditions.as_slice())?;
    text.extend_from_slice(b"],\"success\":[")?;
    text.extend_from_slice(operations.as_slice())?;
    text.extend_from_slice(b"]}")?;
    Ok(text)
}

/// Makes the request whether keys hold these values.
pub fn compare_text(alloc: Global, first: &Pair, beside: &[Pair]) -> Result<Vec<u8>, AllocError>
    ensures { IfOk result (λ text. text.items
        ≡ compare_text (first.now.key.items, first.now.value.items) (pairs_of beside.now)) }
{
    let holds = holds_text(alloc, first)?;
    let all_hold = all_hold_text(alloc, beside)?;
    let mut text = Vec::from_slice(alloc, b"{\"compare\":[")?;
    text.extend_from_slice(holds.as_slice())?;
    text.extend_from_slice(all_hold.as_slice())?;
    text.extend_from_slice(b"]}")?;
    Ok(text)
}

/// Makes the request what a key holds.
pub fn range_text(alloc: Global, key: &[u8]) -> Result<Vec<u8>, AllocError>
    ensures { IfOk result (λ text. text.items ≡ range_text key.now) }
{
    let mut text = Vec::from_slice(alloc, b"{\"key\":\"")?;
    spell(alloc, &mut text, key)?;
    text.extend_from_slice(b"\"}")?;
    Ok(text)
}

/// Makes the request what the keys hold from one on up to another one, which isn't read.
pub fn page_text(alloc: Global, key: &[u8], end: &[u8]) -> Result<Vec<u8>, AllocError>
    ensures { IfOk result (λ text. text.items ≡ page_text key.now end.now) }
{
    let mut text = Vec::from_slice(alloc, b"{\"key\":\"")?;
    spell(alloc, &mut text, key)?;
    text.extend_from_slice(b"\",\"range_end\":\"")?;
    spell(alloc, &mut text, end)?;
    text.extend_from_slice(b"\"}")?;
    Ok(text)
}

/// Makes the request for a lease of so many seconds.
pub fn grant_text(alloc: Global, seconds: u32) -> Result<Vec<u8>, AllocError>
    ensures { IfOk result (λ text. text.items ≡ grant_text seconds) }
{
    let mut digits = Buffer::new();
    let mut text = Vec::from_slice(alloc, b"{\"TTL\":\"")?;
    text.extend_from_slice(digits.format(seconds).as_bytes())?;
    text.extend_from_slice(b"\"}")?;
    Ok(text)
}

/// Makes the request that a lease be kept alive, or revoked.
pub fn lease_text(alloc: Global, lease: u64) -> Result<Vec<u8>, AllocError>
    ensures { IfOk result (λ text. text.items ≡ lease_text lease) }
{
    let mut digits = Buffer::new();
    let mut text = Vec::from_slice(alloc, b"{\"ID\":\"")?;
    text.extend_from_slice(digits.format(lease).as_bytes())?;
    text.extend_from_slice(b"\"}")?;
    Ok(text)
}

/// Makes the operation that the key of the lead hold an address as long as a lease lasts.
fn lead_put_text(alloc: Global, lease: u64, address: &[u8]) -> Result<Vec<u8>, AllocError>
    ensures { IfOk result (λ text. text.items ≡ lead_put_text lease address.now) }
{
    let mut digits = Buffer::new();
    let mut text = Vec::from_slice(alloc, b"{\"requestPut\":{\"key\":\"")?;
    spell(alloc, &mut text, LEAD)?;
    text.extend_from_slice(b"\",\"value\":\"")?;
    spell(alloc, &mut text, address)?;
    text.extend_from_slice(b"\",\"lease\":\"")?;
    text.extend_from_slice(digits.format(lease).as_bytes())?;
    text.extend_from_slice(b"\"}}")?;
    Ok(text)
}

/// Makes the request that the key of the lead hold an address as long as a lease lasts, if it holds
/// none.
pub fn lead_text(alloc: Global, lease: u64, address: &[u8]) -> Result<Vec<u8>, AllocError>
    ensures { IfOk result (λ text. text.items ≡ lead_text lease address.now) }
{
    let absent = absent_text(alloc, LEAD)?;
    let put = lead_put_text(alloc, lease, address)?;
    let mut text = Vec::from_slice(alloc, b"{\"compare\":[")?;
    text.extend_from_slice(absent.as_slice())?;
    text.extend_from_slice(b"],\"success\":[")?;
    text.extend_from_slice(put.as_slice())?;
    text.extend_from_slice(b"]}")?;
    Ok(text)
}

/// Makes the line and the field of a request at a target, for a body of so many bytes.
fn head_bytes(alloc: Global, target: &[u8], size: usize) -> Result<Vec<u8>, AllocError>
    ensures { IfOk result (λ bytes. bytes.items ≡ head_bytes target.now size) }
{
    let mut digits = Buffer::new();
    let mut bytes = Vec::from_slice(alloc, b"POST ")?;
    bytes.extend_from_slice(target)?;
    bytes.extend_from_slice(b" HTTP/1.0\r\nContent-Length: ")?;
    bytes.extend_from_slice(digits.format(size).as_bytes())?;
    Ok(bytes)
}

/// Makes the bytes of a request for a body at a target, after whose reply the connection ends.
pub fn request_bytes(alloc: Global, target: &[u8], body: &[u8]) -> Result<Vec<u8>, AllocError>
    ensures { IfOk result (λ bytes. bytes.items ≡ request_bytes target.now body.now) }
{
    let mut bytes = head_bytes(alloc, target, body.len())?;
    bytes.extend_from_slice(b"\r\n\r\n")?;
    bytes.extend_from_slice(body)?;
    Ok(bytes)
}
