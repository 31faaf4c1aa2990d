// What is known of one commit.
use crate::histories::{line_of, names_of};
use crate::listings::escaped;
use httpdate::{HttpDate, fmt_http_date};
use std::alloc::{AllocError, Global};
use su_block::digest_of;
use su_bytes::Refusal;
use su_history::lines;
use su_history_json::history_json;
use su_history_text::history_text;
use su_people_session::{Keyless, Session, Trouble, name_of};
use su_team::grouped;
use su_version::Commit;

/// What is known of a commit.
#[derive(Debug, Drop)]
struct Known {
    number: u64,
    author: String,
    digest: String,
    /// When this machine took it, in seconds after 1970.
    seen: Option<u64>,
    /// How many bytes its item has.
    length: usize,
}

/// Returns the text of `show`: what is known of a commit, as a JSON object where that is asked for.
/// `NoOperation` where there is no commit of that number; `NoMemory`.
pub fn show<T>(
    session: &mut Session<'_, T, Keyless>,
    number: u64,
    json: bool,
) -> Result<String, Trouble> {
    let alloc = session.helper.rt.alloc();
    let names = names_of(alloc, &mut session.member)?;
    let known = known_of(session, number)?;
    let team = session.helper.folder.team();
    let all = line_of(lines(alloc, session.member.view().history())?, number);
    if json {
        let line = history_json(alloc, &all, team, &names)?;
        return Ok(known.json(alloc, line.as_str())?);
    }
    let line = history_text(alloc, &all, team, &names)?;
    Ok(known.text(alloc, line.as_str())?)
}

/// Finds what is known of a commit.
fn known_of<T>(session: &Session<'_, T, Keyless>, number: u64) -> Result<Known, Trouble> {
    let alloc = session.helper.rt.alloc();
    let Some((bytes, item)) = session.member.view().entry(number) else {
        return Err(Trouble::from(Refusal::NoOperation(number)));
    };
    let commit = Commit::decode(alloc, bytes)?;
    let team = session.helper.folder.team();
    Ok(Known {
        number,
        author: name_of(alloc, team, commit.version().author())?,
        digest: grouped(alloc, &digest_of(bytes))?,
        seen: session.helper.folder.time_of(number),
        length: item.len(),
    })
}

impl Known {
    /// Returns it for people, with the line of the history behind it.
    fn text(&self, alloc: Global, line: &str) -> Result<String, AllocError> {
        let seen = moment(alloc, self.seen)?;
        let Known {
            number,
            author,
            digest,
            length,
            ..
        } = self;
        format!(in alloc;
            "commit {number} by {author}\ndigest {digest}\nseen {seen}\nitem of {length} bytes\n{line}"
        )
    }

    /// Returns it as a JSON object, with the array of the history's lines that have it.
    fn json(&self, alloc: Global, lines: &str) -> Result<String, AllocError> {
        let author = escaped(alloc, self.author.as_str())?;
        let seen = match self.seen {
            Some(second) => format!(in alloc; "{second}")?,
            None => String::from_str(alloc, "null")?,
        };
        let lines = lines.trim_end_matches('\n');
        let Known {
            number,
            digest,
            length,
            ..
        } = self;
        format!(in alloc;
            "{{\"number\":{number},\"author\":\"{author}\",\"digest\":\"{digest}\",\"seen\":{seen},\
\"bytes\":{length},\"lines\":{lines}}}\n"
        )
    }
}

/// Tells a second after 1970, by this machine's clock.
fn moment(alloc: Global, second: Option<u64>) -> Result<String, AllocError> {
    let Some(second) = second else {
        return String::from_str(alloc, "at a time that isn't known");
    };
    match HttpDate::from_unix_secs(second) {
        Ok(date) => fmt_http_date(alloc, date),
        Err(_) => String::from_str(alloc, "at a time that isn't known"),
    }
}
