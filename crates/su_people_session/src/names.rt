// Paths in refusals, and their last names.
ghost use Rattle.std.specs.Prelude.{◌≡◌, Ok, IfOk};

use crate::troubles::Trouble;
use std::alloc::Global;
use su_bytes::Refusal;
use su_person::Fault;

/// Returns the value of an answer. A refusal comes back with the path named in it; `NoMemory`
/// where there is no memory to name it.
pub fn named<V: Drop>(alloc: Global, path: &[u8], answer: Result<V, Refusal>) -> Result<V, Trouble>
    ensures { IfOk result (λ value. answer ≡ Ok value) }
{
    match answer {
        Ok(value) => Ok(value),
        Err(refusal) => Err(Trouble::at(path, alloc, Fault::from(refusal))),
    }
}

/// Returns the bytes behind the last `/`, or all where there is none.
pub fn last_name(path: &[u8]) -> &[u8] {
    match path.iter().rposition(|byte| *byte == b'/') {
        Some(place) => &path[place + 1..],
        None => path,
    }
}

/// Tells whether a path leads to a state folder, or into one.
pub fn is_of_state(path: &[u8]) -> bool {
    path.split(|byte| *byte == b'/')
        .any(|name| name == b".sundr".as_slice())
}
