// What a program writes: one line for each reply, in upper-case digits.
ghost use Rattle.std.specs.Prelude.{◌≡◌, [], ◌∷◌, ◌++◌, OnOk};
ghost use Rattle.codec.specs.Lines.{digits, written};
ghost use Rattle.protocol.specs.Replies.{refused_at, reply_bytes};

use codec::digits::digits_of;
use script::faults::{Refusal, RunFault};
use std::alloc::AllocError;

// A reply has in its own fields what its line says: with the entries and counts of runs in it, all that reads an input would
// depend on the crate runs, for a few names less.
#[derive(Clone, Copy)]
pub enum Reply {
    // How many samples a track holds, after one was fed.
    Fed {
        track: u8,
        held: u16,
    },
    // How many turns were given.
    Advanced {
        turns: u16,
    },
    // How many entries a channel has, and how many it missed.
    Channel {
        channel: u8,
        entries: u16,
        missed: u32,
    },
    // One entry of a channel. A mark has a value too, which is 0: the line of the format has both fields.
    Entry {
        turn: u32,
        thread: u8,
        mark: bool,
        value: i32,
    },
    // The number of a refusal, and the line that it stands at.
    Refused {
        number: u8,
        line: u16,
    },
    // The turns in all, at the end.
    Closed {
        turns: u32,
    },
}

// The reply to a fault at a line; a fault of lines has its line itself, one of calls has that of the run line that made the call.
// Two values make it, so it is no From.
pub fn refused(fault: RunFault, line: u16) -> Reply
    ensures { result ≡ refused_at fault line }
{
    let refusal = Refusal::from(fault);
    Reply::Refused {
        number: refusal.number,
        line: refusal.line.unwrap_or(line),
    }
}

// Puts bytes as a line behind an output.
#[tactic(auto, unfolding(codec::specs::Lines::digits, codec::specs::Lines::written))]
fn put_line(out: &mut Vec<u8>, bytes: &[u8]) -> Result<(), AllocError>
    ensures { OnOk result (out.new.items ≡ out.old.items ++ written (bytes.now ∷ [])) }
{
    for byte in bytes {
        let (high, low) = digits_of(*byte);
        out.push(high)?;
        out.push(low)?;
    }
    out.push(b'\n')?;
    Ok(())
}

fn channel_bytes(channel: u8, entries: u16, missed: u32) -> [u8; 8]
    ensures { result ≡ reply_bytes (Reply.Channel channel entries missed) }
{
    let [a, b] = entries.to_be_bytes();
    let [c, d, e, f] = missed.to_be_bytes();
    [0x60, channel, a, b, c, d, e, f]
}

fn entry_bytes(turn: u32, thread: u8, mark: bool, value: i32) -> [u8; 11]
    ensures { result ≡ reply_bytes (Reply.Entry turn thread mark value) }
{
    let [a, b, c, d] = turn.to_be_bytes();
    let [e, f, g, h] = value.to_be_bytes();
    [0x61, a, b, c, d, thread, u8::from(mark), e, f, g, h]
}

// Puts the line of a reply behind an output: an arm takes its numbers to bytes itself, and those of the two long lines have a function
// each. Field by field, each number put by the bytes that to_be_bytes gives, the proof for an entry's value was tried and didn't close.
pub fn put_reply(out: &mut Vec<u8>, reply: Reply) -> Result<(), AllocError>
    ensures { OnOk result (out.new.items ≡ out.old.items ++ written (reply_bytes reply ∷ [])) }
{
    match reply {
        Reply::Fed { track, held } => {
            let [a, b] = held.to_be_bytes();
            put_line(out, &[0x63, track, a, b])
        }
        Reply::Advanced { turns } => {
            let [a, b] = turns.to_be_bytes();
            put_line(out, &[0x62, a, b])
        }
        Reply::Channel {
            channel,
            entries,
            missed,
        } => put_line(out, &channel_bytes(channel, entries, missed)),
        Reply::Entry {
            turn,
            thread,
            mark,
            value,
        } => put_line(out, &entry_bytes(turn, thread, mark, value)),
        Reply::Refused { number, line } => {
            let [a, b] = line.to_be_bytes();
            put_line(out, &[0x6F, number, a, b])
        }
        Reply::Closed { turns } => {
            let [a, b, c, d] = turns.to_be_bytes();
            put_line(out, &[0x64, a, b, c, d])
        }
    }
}
