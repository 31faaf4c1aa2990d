// At what etcd's gateway is asked.
ghost use Rattle.std.specs.Prelude.{◌≡◌};

/// What is asked: a transaction, what keys hold, or of a lease that it be granted, kept alive or
/// revoked.
#[derive(Clone, Copy, Debug, PartialEq, Eq)]
pub enum Target {
    Txn,
    Range,
    Grant,
    KeepAlive,
    Revoke,
}

impl Target {
    ghost use Rattle.su_gateway.specs.Requests.{path_of};

    /// Returns the path at which it is asked.
    pub fn path(self) -> &'static [u8]
        ensures { result.now ≡ path_of self }
    {
        match self {
            Target::Txn => b"/v3/kv/txn",
            Target::Range => b"/v3/kv/range",
            Target::Grant => b"/v3/lease/grant",
            Target::KeepAlive => b"/v3/lease/keepalive",
            Target::Revoke => b"/v3/lease/revoke",
        }
    }
}
