// The lead: who has it, and the lease as long as which it is had.
ghost use Rattle.std.specs.Prelude.{◌≡◌, ℕ, List, None, Some, codes, IfOk, IfSome, OnOk};
ghost use Rattle.serde_json.specs.Read.{read};
ghost use Rattle.serde_json.specs.View.{view};
ghost use Rattle.su_gateway.specs.declared.targets.Target.{Target};
ghost use Rattle.serde_json.specs.declared.value.Value.{Value};
ghost use Rattle.su_gateway.specs.declared.targets.Target.TheVariants.{Txn, Grant, KeepAlive, Revoke};
ghost use Rattle.su_gateway.specs.Requests.{grant_text, lease_text, lead_text};
ghost use Rattle.su_gateway.specs.Replies.{IsReply, IsDone, IsAtRevision, IsLeft, HasNumber};

use crate::wires::{Request, Wire};
use serde_json::Value;
use std::alloc::Global;
use su_engine::Unanswered;
use su_gateway::{
    Target, grant_text, is_done, lead_text, lease_text, number_in, read_json, read_reply,
};

/// Asks once, and reads the reply.
fn ask<W: Wire>(alloc: Global, wire: &mut W, request: &Request) -> Result<Value, Unanswered>
    ensures told { IfOk result (λ value. (reply : List ℕ)
        × W.told wire.new request.now.target request.now.body.items reply
        × IsReply reply (view value)) }
    ensures held { (t : Target) (q r : List ℕ) → W.told wire.old t q r → W.told wire.new t q r }
{
    let reply = wire.ask(alloc, request)?;
    read_reply(alloc, reply.as_slice())
}

/// Asks once for a lease of so many seconds, and returns its ID. Fails where no reply comes that
/// tells one; a lease that was granted then ends by itself.
pub fn grant<W: Wire>(alloc: Global, wire: &mut W, seconds: u32) -> Result<u64, Unanswered>
    ensures told { IfOk result (λ lease. (reply : List ℕ) × (value : Value)
        × W.told wire.new Grant (grant_text seconds) reply × IsReply reply (view value)
        × HasNumber (codes "ID") (view value) lease) }
    ensures held { (t : Target) (q r : List ℕ) → W.told wire.old t q r → W.told wire.new t q r }
{
    let request = Request {
        target: Target::Grant,
        body: grant_text(alloc, seconds)?,
    };
    let reply = ask(alloc, wire, &request)?;
    match number_in(&reply, "ID") {
        Some(lease) => Ok(lease),
        None => Err(Unanswered),
    }
}

/// Asks once that a lease be kept alive, and returns how many seconds it has left from then on: 0
/// where it is over. Fails where no reply comes that tells it.
pub fn keep_alive<W: Wire>(alloc: Global, wire: &mut W, lease: u64) -> Result<u64, Unanswered>
    ensures told { IfOk result (λ left. (reply : List ℕ) × (value : Value)
        × W.told wire.new KeepAlive (lease_text lease) reply × (read reply ≡ Some (view value))
        × IsLeft (view value) left) }
    ensures held { (t : Target) (q r : List ℕ) → W.told wire.old t q r → W.told wire.new t q r }
{
    let request = Request {
        target: Target::KeepAlive,
        body: lease_text(alloc, lease)?,
    };
    let reply = wire.ask(alloc, &request)?;
    let value = read_json(alloc, reply.as_slice())?;
    match seconds_left(&value) {
        Some(left) => Ok(left),
        None => Err(Unanswered),
    }
}

/// How many seconds a lease has left, by a reply.
fn seconds_left(reply: &Value) -> Option<u64>
    ensures { IfSome result (λ left. IsLeft (view reply.now) left) }
{
    let told = reply.get("result")?;
    if told.get("TTL").is_none() {
        return Some(0);
    }
    number_in(told, "TTL")
}

/// Asks once that a lease end, and what hangs on it. Fails where no reply comes that tells so.
pub fn revoke<W: Wire>(alloc: Global, wire: &mut W, lease: u64) -> Result<(), Unanswered>
    ensures told { OnOk result ((reply : List ℕ) × (value : Value)
        × W.told wire.new Revoke (lease_text lease) reply × IsReply reply (view value)) }
    ensures held { (t : Target) (q r : List ℕ) → W.told wire.old t q r → W.told wire.new t q r }
{
    let request = Request {
        target: Target::Revoke,
        body: lease_text(alloc, lease)?,
    };
    let _reply = ask(alloc, wire, &request)?;
    Ok(())
}

/// Asks once for the lead, as long as a lease lasts, and lets an address stand for who has it.
/// Returns the revision at which its key was made: the token under which the one who leads puts.
/// `None` where the lead is had already, also by an earlier try that got no answer. Fails where no
/// reply comes that tells it.
pub fn take_lead<W: Wire>(
    alloc: Global,
    wire: &mut W,
    lease: u64,
    address: &[u8],
) -> Result<Option<u64>, Unanswered>
    ensures told { IfOk result (λ o. IfSome o (λ lead. (reply : List ℕ) × (value : Value)
        × W.told wire.new Txn (lead_text lease address.now) reply × IsReply reply (view value)
        × IsDone (view value) × IsAtRevision (view value) lead)) }
    ensures held { (t : Target) (q r : List ℕ) → W.told wire.old t q r → W.told wire.new t q r }
{
    let request = Request {
        target: Target::Txn,
        body: lead_text(alloc, lease, address)?,
    };
    let reply = ask(alloc, wire, &request)?;
    if !is_done(&reply) {
        return Ok(None);
    }
    match revision_of(&reply) {
        Some(lead) => Ok(Some(lead)),
        None => Err(Unanswered),
    }
}

/// The revision that the header of a reply tells.
fn revision_of(reply: &Value) -> Option<u64>
    ensures { IfSome result (λ revision. IsAtRevision (view reply.now) revision) }
{
    let header = reply.get("header")?;
    number_in(header, "revision")
}
