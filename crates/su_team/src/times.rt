// When commits were taken.
ghost use Rattle.std.specs.Prelude.{◌≡◌};
ghost use Rattle.su_team.specs.Time.{time_at};

/// Bytes of a time.
const TIME_LENGTH: u64 = 8;

/// Returns the second in which the commit with that number, from 1, was taken: eight bytes are kept
/// for each commit, the most significant first. `None` where the bytes have none of it.
pub fn time_of(times: &[u8], number: u64) -> Option<u64>
    ensures { result ≡ time_at times.now number }
{
    let count = times.len() as u64 / TIME_LENGTH;
    if number < 1 || count < number {
        return None;
    }
    let place = (TIME_LENGTH * (number - 1)) as usize;
    let mut bytes = [0; TIME_LENGTH as usize];
    bytes.copy_from_slice(&times[place..place + 8]);
    Some(u64::from_be_bytes(bytes))
}
