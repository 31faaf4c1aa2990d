// What carries requests to etcd.
ghost use Rattle.std.specs.Prelude.{◌≡◌, ℕ, List, IfOk};

use std::alloc::Global;
use su_engine::Unanswered;
use su_gateway::Target;

/// A body that is asked at a target.
#[derive(Drop)]
pub struct Request {
    pub target: Target,
    pub body: Vec<u8>,
}

/// Carries requests to some member of an etcd.
pub trait Wire: Drop {
    ghost use Rattle.su_gateway.specs.declared.targets.Target.{Target};

    // A body was asked at this target, and this body was replied.
    ghost told: { Self → Target → List ℕ → List ℕ → Type 0 };

    /// Asks for a reply, once. Fails where none comes that is whole and says that all went well.
    fn ask(&mut self, alloc: Global, request: &Request) -> Result<Vec<u8>, Unanswered>
        ensures told { IfOk result (λ reply. told self.new request.now.target
            request.now.body.items reply.items) }
        ensures held { (t : Target) (q r : List ℕ) → told self.old t q r → told self.new t q r };
}
