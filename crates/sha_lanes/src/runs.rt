// Runs of steps of chains.
ghost use Rattle.std.specs.Prelude.{◌≡◌, ◌≤◌, ◌+◌};
ghost use Rattle.sha_lanes.specs.Chain.{AreBytes};

/// A run of steps of a chain (RFC 8554, Section 4.3): where the chain stands in its key, the value
/// that it has come to, and how far it goes from there.
#[derive(Clone, Copy, Debug, PartialEq, Eq)]
pub struct ChainRun {
    /// I, by which keys are told apart.
    pub id: [u8; 16],
    /// q, the leaf of the key.
    pub leaf: u32,
    /// i, the chain of the leaf.
    pub chain: u16,
    /// j, the step that comes next.
    pub step: u16,
    /// How many steps are left to go.
    pub left: u16,
    /// The value before the next step.
    pub value: [u8; 32],
    pub ghost within: { step + left ≤ 256 },
    // What the types say, for clauses on runs in a list.
    pub ghost id_bytes: { AreBytes 16 id },
    pub ghost value_bytes: { AreBytes 32 value },
}

impl ChainRun {
    /// A run of no step.
    pub fn idle() -> ChainRun
        ensures { result.left ≡ 0 }
    {
        ChainRun {
            id: [0; 16],
            leaf: 0,
            chain: 0,
            step: 0,
            left: 0,
            value: [0; 32],
        }
    }
}
