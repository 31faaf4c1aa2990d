// How a local file is read.
ghost use Rattle.std.specs.Prelude.{◌≤◌, length, IfOk, IfSome};

use std::fs::File;
use std::io;
use std::io::Read;

/// Reads a whole file; `None` where it has more than `most` bytes.
pub fn read_whole(rt: &HostRuntime, path: &str, most: u32) -> io::Result<Option<Vec<u8>>>
    ensures { IfOk result (λ bytes. IfSome bytes (λ bytes. length bytes.items ≤ most)) }
{
    let mut bytes = Vec::new(rt.alloc());
    let file = File::open(rt, path)?;
    file.take(u64::from(most) + 1).read_to_end(&mut bytes)?;
    if (most as usize) < bytes.len() {
        return Ok(None);
    }
    Ok(Some(bytes))
}
