// What stands in the way of an undo.
use crate::histories::{line_of, names_of};
use std::alloc::Global;
use su_block::BlockSource;
use su_history::{Line, lines};
use su_history_json::history_json;
use su_history_text::{FileNames, history_text};
use su_people_session::{Keyless, Session, Trouble};
use su_team::Team;
use su_view::View;
use su_why::reasons_in;

/// Returns the text of `undo --why`: what has to be taken back before, in an order in which it can
/// be, and who can; as a JSON array of the history's lines where that is asked for. `NoOperation`, `NotOperation`, `AlreadyUndone` where the number isn't that of
/// an operation that can be taken back; `NoMemory`.
pub fn why<T>(
    session: &mut Session<'_, T, Keyless>,
    number: u64,
    json: bool,
) -> Result<String, Trouble> {
    let alloc = session.helper.rt.alloc();
    let names = names_of(alloc, &mut session.member)?;
    let team = session.helper.folder.team();
    let view = session.member.view();
    let reasons = reasons_in(alloc, view.roster().copy()?, view, number)?;
    if json {
        let all = lines_of(lines(alloc, view.history())?, &reasons);
        return Ok(history_json(alloc, &all, team, &names)?);
    }
    if reasons.is_empty() {
        return Ok(format!(in alloc; "nothing blocks {number}: it can be taken back\n")?);
    }
    let mut text = format!(in alloc;
        "before {number} these have to be taken back, in this order:\n"
    )?;
    for reason in &reasons {
        let line = reason_line(alloc, view, team, &names, *reason)?;
        text.push_str(line.as_str())?;
    }
    Ok(text)
}

/// Returns the lines that have one of these numbers, in their order.
fn lines_of(mut all: Vec<Line>, numbers: &[u64]) -> Vec<Line> {
    all.retain(|line| {
        numbers
            .iter()
            .any(|number| line.first <= *number && *number <= line.last)
    });
    all
}

/// Returns the line of a commit that has to be taken back before another.
fn reason_line<S: BlockSource + Drop>(
    alloc: Global,
    view: &View<S>,
    team: &Team,
    names: &FileNames,
    number: u64,
) -> Result<String, Trouble> {
    let all = line_of(lines(alloc, view.history())?, number);
    Ok(history_text(alloc, &all, team, names)?)
}
