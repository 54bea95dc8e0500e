// A session: a script, who gives its turns, and then one answer for each run line.
ghost use Rattle.std.specs.Prelude.{◌≡◌, ℕ, IfOk};
ghost use Rattle.codec.specs.Slots.{Padded};
ghost use Rattle.script.specs.Format.{read_script};
ghost use Rattle.script.specs.Format.Verdict.{refused as refused_with};
ghost use Rattle.sledge.specs.Sessions.{Refusals, Stopped, refusal_line};

use crate::slabs::Slabs;
use crate::stop::Stop;
use lattice::{Bits, Lattice, TwoPoint};
use protocol::intake::{Kind, kind_for_text, short_enough, split_script};
use protocol::replies::{Reply, put_reply};
use protocol::run_lines::{Call, Line, Lines, Scheduling, fault_at, read_call, read_scheduling};
use runs::{Count, Entry, Run};
use scheduler::{PickList, RoundRobin, Scheduler};
use script::faults::Cause;
use script::{Accepted, SLAB, read};
use std::alloc::{AllocError, Global};

// All that is written for an input. What stops the session before its run is made is told in one line, and nothing follows.
pub fn respond(heap: Global, input: &[u8]) -> Result<Vec<u8>, AllocError>
    ensures { IfOk result (λ v. Refusals input.now (λ n l. v.items ≡ refusal_line n l)) }
{
    let mut out = Vec::new(heap);
    if let Err(stop) = hold_session(heap, input, &mut out) {
        stop.tell(&mut out, 0)?;
    }
    Ok(out)
}

// The header says which kind of levels a script has, and the kind becomes a type by an arm for each. A trait to call through,
// for this program and report, would be no plainer.
fn hold_session(heap: Global, input: &[u8], out: &mut Vec<u8>) -> Result<(), Stop>
    ensures { Refusals input.now (λ n l. Stopped n l out.old.items out.new.items result) }
{
    short_enough(input)?;
    let (script, run_lines) = split_script(input);
    match kind_for_text(script) {
        Kind::TwoPoint => start::<TwoPoint>(heap, script, run_lines, out),
        Kind::Bits => start::<Bits>(heap, script, run_lines, out),
    }
}

// Reads the script, and with one that is accepted goes on to the run lines.
fn start<K: Lattice>(
    heap: Global,
    script: &[u8],
    run_lines: &[u8],
    out: &mut Vec<u8>,
) -> Result<(), Stop>
    ensures { (n l : ℕ) → read_script K.kind K.order script.now ≡ refused_with n l → Stopped n l out.old.items out.new.items result }
{
    let mut slab = vec![in heap; 0u8; SLAB]?;
    let accepted = read::<K>(script, &mut slab)?;
    schedule(heap, &accepted, slab, run_lines, out)
}

// The first run line says who gives the turns.
fn schedule<K: Lattice>(
    heap: Global,
    accepted: &Accepted<K>,
    slab: Vec<u8>,
    run_lines: &[u8],
    out: &mut Vec<u8>,
) -> Result<(), Stop> {
    let declared = accepted.declarations();
    // A script has a line for each frame.
    let number = declared.frames.saturating_add(1);
    let mut lines = Lines::numbered(run_lines, number);
    let line = lines.next().ok_or(fault_at(number, Cause::Order))?;
    let slot = line.bytes?;
    let scheduling = read_scheduling(&slot.bytes[..slot.len], number)?;
    let slabs = Slabs::around(heap, slab, declared)?;
    // Each scheduler is a type of its own, and a run is generic in it. One value for both would be an enum that implements the
    // trait by these two arms in each of its functions, which is no plainer.
    match scheduling {
        Scheduling::RoundRobin => run_through(accepted, RoundRobin::new(), slabs, lines, out),
        Scheduling::PickList { picks } => run_through(
            accepted,
            PickList::new(picks),
            slabs,
            lines,
            out,
        ),
    }
}

// Makes the run, answers the calls, and closes it, also where there was no memory for an answer.
fn run_through<K: Lattice, S: Scheduler + Drop>(
    accepted: &Accepted<K>,
    scheduler: S,
    mut slabs: Slabs,
    calls: Lines<'_>,
    out: &mut Vec<u8>,
) -> Result<(), Stop> {
    let run = slabs.make(accepted, scheduler)?;
    let mut session = Session { run, slabs, out };
    let answered = session.answer_all(calls);
    let turns = session.close();
    answered?;
    put_reply(out, Reply::Closed { turns })?;
    Ok(())
}

// A run, the memory that it is lent, and what is written. It has to be closed, as a run has to.
struct Session<'a, K: Lattice, S: Scheduler + Drop> {
    run: Run<K, S>,
    slabs: Slabs,
    out: &'a mut Vec<u8>,
}

impl<K: Lattice, S: Scheduler + Drop> Session<'_, K, S> {
    // Answers line by line; a refusal is told at its line, and the next line is taken.
    fn answer_all(&mut self, calls: Lines<'_>) -> Result<(), AllocError> {
        for line in calls {
            if let Err(stop) = self.answer(line) {
                stop.tell(self.out, line.number)?;
            }
        }
        Ok(())
    }

    // Makes the call that a line asks for, and tells what it gave.
    fn answer(&mut self, line: Line<'_>) -> Result<(), Stop>
        requires { IfOk line.bytes Padded }
    {
        let number = line.number;
        let slot = line.bytes?;
        let reply = match read_call(&slot.bytes[..slot.len], number)? {
            Call::Feed { track, sample } => Reply::Fed {
                track,
                held: self.slabs.feed(&mut self.run, track, sample)?,
            },
            Call::Advance { turns } => Reply::Advanced {
                turns: self.slabs.advance(&mut self.run, turns)?,
            },
            Call::Read { channel } => return self.show(channel),
            // No call tells a thread's status yet, so the kind of such a line is unknown.
            Call::Status { .. } => {
                return Err(Stop::from(fault_at(number, Cause::Shape)));
            }
        };
        put_reply(self.out, reply)?;
        Ok(())
    }

    // A channel's count, and then all of its entries.
    fn show(&mut self, channel: u8) -> Result<(), Stop> {
        let Count { entries, missed } = self.slabs.count(&self.run, channel)?;
        let reply = Reply::Channel {
            channel,
            entries,
            missed,
        };
        put_reply(self.out, reply)?;
        // A run answers one entry at a call, by its number, and the calls on a run are fixed.
        for index in 0..entries {
            let Entry {
                turn,
                thread,
                mark,
                value,
            } = self.slabs.entry(&self.run, channel, index)?;
            let reply = Reply::Entry {
                turn,
                thread,
                mark,
                value,
            };
            put_reply(self.out, reply)?;
        }
        Ok(())
    }

    // Ends the run: how many turns it was given.
    fn close(self) -> u32 {
        let Session {
            run,
            mut slabs,
            out: _,
        } = self;
        slabs.close(run)
    }
}
