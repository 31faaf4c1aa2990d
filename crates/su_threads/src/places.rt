// Reports in the places of their sessions.
ghost use Rattle.std.specs.Prelude.{◌≡◌, ◌⊎◌, map, vec_len, IfOk, IfErr, All, IsPermutation};
ghost use Rattle.su_bytes.specs.declared.refusals.Refusal.TheVariants.{LinkFailed, NoMemory};
ghost use Rattle.std.specs.List.{range_with_len};
ghost use Rattle.su_threads.specs.Runs.{RanSo};

use crate::links::Link;
use crate::reports::Report;
use std::alloc::Global;
use su_bytes::Refusal;
use su_session::{Served, Service};

/// Puts the reports of sessions 1 to `count` in their places. `LinkFailed` where a number came
/// twice or not at all.
pub(crate) fn place<L: Link, S: Service>(
    alloc: Global,
    mut reports: Vec<Report<L, S>>,
    count: u64,
) -> Result<Vec<Served>, Refusal>
    ensures order { IfOk result (λ all. (sorted : _) × IsPermutation reports.items sorted
        × (map (λ r. r.number) sorted ≡ range_with_len 1 count)
        × (all.items ≡ map (λ r. r.served) sorted)) }
    ensures len { IfOk result (λ all. vec_len all ≡ count) }
    ensures ran { IfOk result (λ all.
        All (λ served. ∥ RanSo (L.runs S.answers) served ∥₁) all.items) }
    ensures refused { IfErr result (λ e. (e ≡ LinkFailed) ⊎ (e ≡ NoMemory)) }
{
    reports.sort_unstable_by_key(|report| report.number);
    in_order(alloc, &reports, count)
}

/// The same, of reports that stand in the order of their numbers.
fn in_order<L: Link, S: Service>(
    alloc: Global,
    reports: &Vec<Report<L, S>>,
    count: u64,
) -> Result<Vec<Served>, Refusal>
    ensures order { IfOk result (λ all.
        (map (λ r. r.number) reports.now.items ≡ range_with_len 1 count)
        × (all.items ≡ map (λ r. r.served) reports.now.items)) }
    ensures len { IfOk result (λ all. vec_len all ≡ count) }
    ensures ran { IfOk result (λ all.
        All (λ served. ∥ RanSo (L.runs S.answers) served ∥₁) all.items) }
    ensures refused { IfErr result (λ e. (e ≡ LinkFailed) ⊎ (e ≡ NoMemory)) }
{
    if reports.len() as u64 != count {
        return Err(Refusal::LinkFailed);
    }
    let mut all = Vec::with_capacity(alloc, reports.len()).map_err(|_| Refusal::NoMemory)?;
    for index in 0..reports.len() {
        let report = &reports[index];
        if report.number != index as u64 + 1 {
            return Err(Refusal::LinkFailed);
        }
        let Ok(()) = all.push(report.served) else {
            return Err(Refusal::NoMemory);
        };
    }
    Ok(all)
}
