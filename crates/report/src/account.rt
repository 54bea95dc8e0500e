// The account of a script that was read: what it declares, frame by frame, and what writing it back gave.
use crate::words::Level;
use codec::frames::{Frame, Store};
use lattice::Lattice;
use protocol::intake::Kind;
use script::faults::{Refusal, RunFault};
use script::{Declarations, frame_at, write};

// A script that was read: the kind of levels that it was read under, its text, its slab, and what it declares.
#[derive(Clone, Copy)]
pub struct Account<'a> {
    pub kind: Kind,
    pub text: &'a [u8],
    pub slab: &'a [u8],
    pub declared: Declarations,
}

impl Account<'_> {
    pub fn tell<K: Lattice>(&self, rt: &HostRuntime) -> anyhow::Result<()> {
        let Declarations { head, frames, .. } = self.declared;
        println!(rt;
            "The script was read and checked: {} bytes, kept in {} bytes of memory.",
            self.text.len(),
            self.slab.len()
        )?;
        println!(rt; "  kind of levels: {:02X}, {}", head.kind, self.kind)?;
        println!(rt;
            "  threads: {}, variables: {}, locks: {}",
            head.threads, head.variables, head.locks
        )?;
        println!(rt;
            "  tracks: {}, channels: {}, frames: {frames}",
            head.tracks, head.channels
        )?;
        self.list_stores(rt)?;
        self.write_back::<K>(rt)
    }

    // The tracks and channels, which stand behind the header.
    fn list_stores(&self, rt: &HostRuntime) -> anyhow::Result<()> {
        let slab = self.slab;
        let kind = self.kind;
        for frame in (1..17u16).map_while(|slot| frame_at(slab, slot)) {
            let (name, store, held) = match frame {
                Frame::Track(store) => ("track", store, "samples"),
                Frame::Channel(store) => ("channel", store, "entries"),
                _ => break,
            };
            let Store {
                number,
                level: code,
                capacity,
            } = store;
            let level = Level { code, kind };
            println!(rt; "  {name} {number}: level {level}, {capacity} {held} at most")?;
        }
        let Declarations {
            samples,
            entries,
            ..
        } = self.declared;
        println!(rt; "  in all {samples} samples and {entries} entries")?;
        Ok(())
    }

    // Writes the script back, and says whether the text came out as it was read.
    fn write_back<K: Lattice>(&self, rt: &HostRuntime) -> anyhow::Result<()> {
        let mut out = vec![in rt.alloc(); 0u8; self.text.len()]?;
        match write::<K>(self.slab, &mut out) {
            Ok(count) if out.as_slice() == self.text => {
                println!(rt; "Written back: {count} bytes, the very text that was read.")?;
            }
            Ok(count) => {
                println!(rt; "Written back: {count} bytes, but NOT the text that was read.")?;
            }
            Err(_) => println!(rt; "NOT written back.")?,
        }
        Ok(())
    }
}

pub fn refused(rt: &HostRuntime, fault: RunFault) -> anyhow::Result<()> {
    let Refusal {
        number,
        line,
        layer,
    } = Refusal::from(fault);
    match line {
        Some(line) => println!(rt; "Refused: number {number} at line {line}, layer {layer}.")?,
        None => println!(rt; "Refused: number {number}, layer {layer}.")?,
    }
    println!(rt; "Meaning: {fault}.")?;
    Ok(())
}
