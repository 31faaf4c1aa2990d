// The numbers of commits.
ghost use Rattle.std.specs.Prelude.{◌≤◌, IfSome};
ghost use Rattle.su_people_line.specs.Deed.{IsNumber};

/// Reads `N`, a commit, or `N..M`, the first and the last of several; `None` where there is no such
/// commit, or the last one is before the first.
pub(crate) fn numbers_of(text: &str) -> Option<(u64, u64)>
    ensures { IfSome result (λ numbers. IsNumber numbers.0 × (numbers.0 ≤ numbers.1)) }
{
    let (first, last) = text.split_once("..").unwrap_or((text, text));
    let (first, last) = (number_of(first)?, number_of(last)?);
    if last < first {
        return None;
    }
    Some((first, last))
}

/// Reads the number of a commit in decimal.
fn number_of(text: &str) -> Option<u64>
    ensures { IfSome result IsNumber }
{
    if !text.bytes().all(|byte| byte.is_ascii_digit()) {
        return None;
    }
    text.parse::<u64>().ok().filter(|number| 1 <= *number)
}
