// What etcd replies.
ghost use Rattle.std.specs.Prelude.{◌≡◌, ◌≤◌, ℕ, List, [], Bool, true, length, drop, decimal, Contains, None, Some, IfOk, IfSome};
ghost use Rattle.serde_json.specs.Read.{read};
ghost use Rattle.serde_json.specs.View.{view};
ghost use Rattle.su_engine.specs.Pairs.{pairs_of};
ghost use Rattle.su_gateway.specs.Replies.{IsResponse, IsReply, IsDone, IsNone, IsListed, IsFound, HasBytes, HasNumber};

use base64::engine::general_purpose::STANDARD;
use http1::fields::KnownFields;
use http1::framing::{Framing, MethodKind, response_framing};
use httparse::Status;
use httparse::spans::{EMPTY_HEADER_SPAN, parse_response};
use itoa::Buffer;
use serde_json::Value;
use std::alloc::Global;
use su_engine::{Pair, Unanswered};

/// Returns where the body begins in the bytes of a response up to the end of the connection. `None`
/// where they are no response, or one of another status than 200, or one that isn't whole.
pub fn body_start(bytes: &[u8]) -> Option<usize>
    ensures within { IfSome result (λ start. start ≤ length bytes.now) }
    ensures body { IfSome result (λ start. IsResponse bytes.now (drop start bytes.now)) }
{
    let mut headers = [EMPTY_HEADER_SPAN; 32];
    let Ok(Status::Complete(head)) = parse_response(bytes, &mut headers) else {
        return None;
    };
    if head.code != 200 {
        return None;
    }
    let fields = KnownFields::from_spans(bytes, &headers[..head.headers]);
    match response_framing(MethodKind::Other, 200, head.version, &fields) {
        Ok(Framing::Length(count)) if count == (bytes.len() - head.len) as u64 => Some(head.len),
        Ok(Framing::UntilClose) => Some(head.len),
        _ => None,
    }
}

/// Reads the JSON of a body. Fails where it is none, or there is no memory.
pub fn read_json(alloc: Global, body: &[u8]) -> Result<Value, Unanswered>
    ensures { IfOk result (λ value. read body.now ≡ Some (view value)) }
{
    let Ok(text) = str::from_utf8(body) else {
        return Err(Unanswered);
    };
    match Value::from_str(alloc, text) {
        Ok(value) => Ok(value),
        Err(_) => Err(Unanswered),
    }
}

/// Reads the JSON of a reply. Fails where it has no header, which etcd gives each of its replies, or
/// there is no memory.
pub fn read_reply(alloc: Global, body: &[u8]) -> Result<Value, Unanswered>
    ensures { IfOk result (λ value. IsReply body.now (view value)) }
{
    let value = read_json(alloc, body)?;
    if value.get("header").is_none() {
        return Err(Unanswered);
    }
    Ok(value)
}

/// Whether a transaction was done.
pub fn is_done(reply: &Value) -> bool
    ensures { result ≡ true → IsDone (view reply.now) }
{
    match reply.get("succeeded").and_then(Value::as_bool) {
        Some(is) => is,
        None => false,
    }
}

/// The bytes of the member of a name. Fails where it is no base64, or there is no memory.
fn bytes_in(alloc: Global, value: &Value, name: &str) -> Result<Vec<u8>, Unanswered>
    ensures { IfOk result (λ bytes. HasBytes name.now (view value.now) bytes.items) }
{
    let Some(text) = value.get(name).and_then(Value::as_str) else {
        return Err(Unanswered);
    };
    match STANDARD.decode(alloc, text.as_bytes()) {
        Ok(bytes) => Ok(bytes),
        Err(_) => Err(Unanswered),
    }
}

/// The pairs of a list, in its order. Fails where one of them is none, or there is no memory.
fn listed_pairs(alloc: Global, list: &Value) -> Result<Vec<Pair>, Unanswered>
    ensures { IfOk result (λ pairs. (p : List ℕ × List ℕ) → Contains (pairs_of pairs.items) p
        → IsListed (view list.now) p.0 p.1) }
{
    let mut pairs = Vec::new(alloc);
    for index in 0..usize::MAX {
        let Some(entry) = list.get(index) else {
            break;
        };
        let key = bytes_in(alloc, entry, "key")?;
        let value = bytes_in(alloc, entry, "value")?;
        pairs.push(Pair { key, value })?;
    }
    Ok(pairs)
}

/// Returns the keys that were found with their values, as etcd has them: in the order of the keys.
/// Fails where the reply isn't one of etcd's, or there is no memory.
pub fn found_pairs(alloc: Global, reply: &Value) -> Result<Vec<Pair>, Unanswered>
    ensures found { IfOk result (λ pairs. (p : List ℕ × List ℕ)
        → Contains (pairs_of pairs.items) p → IsFound (view reply.now) p.0 p.1) }
    ensures none { IfOk result (λ pairs. pairs.items ≡ [] → IsNone (view reply.now)) }
{
    let Some(list) = reply.get("kvs") else {
        return Ok(Vec::new(alloc));
    };
    let pairs = listed_pairs(alloc, list)?;
    if pairs.is_empty() {
        return Err(Unanswered);
    }
    Ok(pairs)
}

/// Whether digits are those of a number, from the first one that isn't 0.
fn is_decimal(text: &str, number: u64) -> bool
    ensures { result ≡ true → text.now ≡ decimal number }
{
    let mut digits = Buffer::new();
    text == digits.format(number)
}

/// Returns the number that the member of a name spells in digits. `None` where there is no such
/// member, or it is no number below 2^64 in digits.
pub fn number_in(value: &Value, name: &str) -> Option<u64>
    ensures { IfSome result (λ n. HasNumber name.now (view value.now) n) }
{
    let text = value.get(name).and_then(Value::as_str)?;
    match text.parse::<u64>() {
        Ok(number) if is_decimal(text, number) => Some(number),
        _ => None,
    }
}
