// The run of a script.
ghost use Rattle.std.specs.Prelude.{◌≡◌, ℕ, List, Some, IfSome, OnOk};
ghost use Rattle.su_client_work.specs.Work.{Works};
ghost use Rattle.su_desk_lines.specs.Script.{lines_of};
ghost use Rattle.su_desk_lines.specs.Unread.{unread};
ghost use Rattle.su_client_script.specs.Calls.{files_of};
ghost use Rattle.su_client_script.specs.Lines.{PrintsUnlessFault, Runs};
ghost use Rattle.su_client_script.specs.Run.{Adds, AddsUnlessFault, StopsIfAsked};
ghost use Rattle.su_client_script.specs.Step.{EndsWith, Steps};

use crate::endings::{Ending, Fault};
use crate::programs::Program;
use crate::steps::{Step, bad_step, line_step};
use std::alloc::Global;
use std::io;
use std::io::{Read, Write};
use su_client_work::Member;
use su_desk_lines::{LineReader, Mistake, NextLine};
use su_lms::KeyStore;

/// How a run goes.
#[derive(Clone, Copy, Debug)]
pub struct Manner {
    /// Whether it ends at the first command that is refused.
    pub stops: bool,
    /// Whether the operations of a command are committed in batches, and not each by itself.
    pub batches: bool,
    /// Whether the tree is left to the server behind each command that made a commit.
    pub leaves: bool,
}

/// Carries out the commands of a script, line by line, and prints what comes of each before the next
/// line is read. An empty line is passed over; a line that is no command ends the run, and so does
/// one that is refused, if the run is to stop there. Where the link to the server fails, the run ends
/// once the refusal is printed that the command met. Behind a command that made a commit the client
/// leaves the tree to the server, if it is to, and what that refuses changes no answer. The program
/// makes a link anew whose session was ended before a command, waits while another has the turn,
/// saves logs, and explains refusals.
pub fn run_client<P, I, O, R, W, K>(
    program: &mut P,
    alloc: Global,
    input: I,
    output: &mut O,
    member: &mut Member<R, W, K>,
    manner: Manner,
) -> Ending
where
    P: Program<R, W, K>,
    I: Read + Drop,
    O: Write,
    R: Read + Drop,
    W: Write + Drop,
    K: KeyStore + Drop,
    ensures works { Works member.old member.new }
    ensures adds { AddsUnlessFault (O.contents output.old) (O.contents output.new) result }
    ensures stops { StopsIfAsked manner.stops result }
    // What is done and printed for the lines, where it is known which they are.
    ensures runs { (script : List ℕ) → I.remaining input ≡ Some script
        → PrintsUnlessFault (O.contents output.old) (O.contents output.new)
        (λ text. Runs P.may_connect (files_of P.saves P.opens) manner.batches (lines_of script)
        member.old member.new text result) result }
{
    let mut lines = LineReader::new(alloc, input);
    for number in 1..u64::MAX {
        match next_step(program, alloc, &mut lines, output, member, number, manner) {
            Ok(step) => {
                if let Some(ending) = ending_of(step, number, manner.stops) {
                    return ending;
                }
            }
            Err(fault) => return Ending::Failed(fault),
        }
    }
    Ending::Failed(Fault::Reading(io::Error::other("it has too many lines")))
}

/// Returns how the run ends with the line of that number, if it does.
fn ending_of(step: Step, number: u64, stops: bool) -> Option<Ending>
    ensures stops { IfSome result (StopsIfAsked stops) }
    ensures ends { EndsWith number step result }
{
    match step {
        Step::Refused if stops => Some(Ending::Refused { number }),
        Step::Done | Step::Refused => None,
        Step::Bad(mistake) => Some(Ending::BadLine { number, mistake }),
        Step::Over => Some(Ending::Finished),
    }
}

/// Carries out the next line, which has that number.
fn next_step<P, I, O, R, W, K>(
    program: &mut P,
    alloc: Global,
    lines: &mut LineReader<I>,
    output: &mut O,
    member: &mut Member<R, W, K>,
    number: u64,
    manner: Manner,
) -> Result<Step, Fault>
where
    P: Program<R, W, K>,
    I: Read + Drop,
    O: Write,
    R: Read + Drop,
    W: Write + Drop,
    K: KeyStore + Drop,
    ensures works { Works member.old member.new }
    ensures adds { OnOk result (Adds (O.contents output.old) (O.contents output.new)) }
    ensures steps { (input : List ℕ) → unread I.remaining lines.old ≡ Some input
        → Steps P.may_connect (files_of P.saves P.opens) manner.batches number input member.old
        member.new (unread I.remaining lines.new) (O.contents output.old) (O.contents output.new)
        result }
{
    match lines.next_line() {
        Ok(NextLine::Line(line)) => match line.as_slice() {
            [] => Ok(Step::Done),
            line => line_step(program, alloc, output, member, line, number, manner),
        },
        Ok(NextLine::TooLong) => bad_step(alloc, output, number, Some(Mistake::LongLine)),
        Ok(NextLine::End) => Ok(Step::Over),
        Err(reason) => Err(Fault::Reading(reason)),
    }
}
