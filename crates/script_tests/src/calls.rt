// What each call answers and what it leaves in memory.
use codec::frames::Frame;
use lattice::{Bits, TwoPoint};
use script::faults::{Layer, LineFault, Refusal, RunFault};
use script::{SLAB, frame_at, holds, kind_named, read, write};
use std::process::Abort;
use std::test::Fail;

// Two threads: the first reads a closed track and sets a variable in a closed branch, the second puts that variable twice on an open channel.
const LISTING: &[u8] = b"0101010202010100\n\
0200000000010004\n\
0300000000000008\n\
2000\n\
310001000000000300\n\
400200\n\
31010100000001\n\
41\n\
42\n\
21\n\
2001\n\
32000201\n\
32000201\n\
21\n\
7F000F\n";

// The refusal of a slab or an output that is too short, or of a slab without a script.
const NO_STATE: Refusal = Refusal {
    number: 9,
    line: None,
    layer: Layer::Run,
};

// A short slab is left as it was; the bytes of a longer one past the script's are left by an accepted script and zeroed by a refusal.
#[test]
fn slabs(rt: HostRuntime) -> Result<(), Fail> {
    let mut short = [7u8; 26_111];
    match read::<TwoPoint>(LISTING, &mut short) {
        Ok(_) => return Err(Fail::new("read into a short slab")),
        Err(fault) => assert_eq!(rt; Refusal::from(fault), NO_STATE),
    }
    assert!(rt; short == [7u8; 26_111]);
    let mut long = [7u8; 26_120];
    assert!(rt; read::<TwoPoint>(LISTING, &mut long).is_ok());
    assert!(rt; long[26_112..] == [7u8; 8]);
    assert!(rt; read::<Bits>(LISTING, &mut long).is_err());
    assert!(rt; long == [0u8; 26_120]);
    Ok(())
}

// What reading tells of the listing, and the same from the slab alone.
#[test]
fn declarations(rt: HostRuntime) -> Result<(), Fail> {
    let mut slab = [7u8; SLAB];
    match read::<TwoPoint>(LISTING, &mut slab) {
        Ok(accepted) => {
            let declared = accepted.declarations();
            assert_eq!(rt; declared.head.threads, 2);
            assert_eq!(rt; declared.head.variables, 2);
            assert_eq!(rt; declared.samples, 4);
            assert_eq!(rt; declared.entries, 8);
            assert_eq!(rt; declared.frames, 15);
        }
        Err(_) => return Err(Fail::new("not read")),
    }
    match holds::<TwoPoint>(&slab) {
        Some(declared) => assert_eq!(rt; declared.frames, 15),
        None => return Err(Fail::new("not found")),
    }
    assert!(rt; holds::<Bits>(&slab).is_none());
    assert!(rt; holds::<TwoPoint>(&slab[1..]).is_none());
    slab[26_111] = 1;
    assert!(rt; holds::<TwoPoint>(&slab).is_none());
    Ok(())
}

// A write that must refuse leaves zeros.
fn not_written(rt: &impl Abort, slab: &[u8], out: &mut [u8]) -> Result<(), Fail> {
    match write::<TwoPoint>(slab, out) {
        Ok(_) => return Err(Fail::new("written")),
        Err(fault) => assert_eq!(rt; Refusal::from(fault), NO_STATE),
    }
    for byte in out {
        assert_eq!(rt; *byte, 0);
    }
    Ok(())
}

// A longer output, one of the very length, and one that is a byte short.
fn writes_listing(rt: &impl Abort, slab: &[u8]) -> Result<(), Fail> {
    let mut long = [7u8; 200];
    assert_eq!(rt;
        write::<TwoPoint>(slab, &mut long).ok(),
        Some(LISTING.len())
    );
    assert!(rt; long.starts_with(LISTING));
    assert!(rt; long[139..] == [7u8; 61]);
    let mut exact = [7u8; 139];
    assert_eq!(rt; write::<TwoPoint>(slab, &mut exact).ok(), Some(139));
    assert!(rt; exact.as_slice() == LISTING);
    not_written(rt, slab, &mut [7u8; 138])
}

#[test]
fn outputs(rt: HostRuntime) -> Result<(), Fail> {
    let mut slab = [7u8; SLAB];
    not_written(&rt, &slab, &mut [7u8; 200])?;
    assert!(rt; read::<TwoPoint>(LISTING, &mut slab).is_ok());
    writes_listing(&rt, &slab)?;
    let mut out = [7u8; 200];
    assert!(rt; write::<Bits>(&slab, &mut out).is_err());
    assert!(rt; out == [0u8; 200]);
    Ok(())
}

// Frames by their slots.
#[test]
fn frames_by_slot(rt: HostRuntime) -> Result<(), Fail> {
    let mut slab = [7u8; SLAB];
    assert!(rt; read::<TwoPoint>(LISTING, &mut slab).is_ok());
    match frame_at(&slab, 1) {
        Some(Frame::Track(store)) => {
            assert_eq!(rt; store.number, 0);
            assert_eq!(rt; store.level, 1);
            assert_eq!(rt; store.capacity, 4);
        }
        _ => return Err(Fail::new("no track")),
    }
    match frame_at(&slab, 14) {
        Some(Frame::Last { frames }) => assert_eq!(rt; frames, 15),
        _ => return Err(Fail::new("no last frame")),
    }
    Ok(())
}

// Slots behind the script, past slot 511 and past the slab.
fn lacks_frames(rt: &impl Abort, slab: &[u8]) {
    assert!(rt; slab.len() == SLAB);
    for slot in [15, 511, 512, 65_535] {
        assert!(rt; frame_at(slab, slot).is_none());
    }
    assert!(rt; frame_at(&slab[0..50], 0).is_none());
    assert!(rt; frame_at(&slab[0..51], 0).is_some());
}

#[test]
fn slots_without_frames(rt: HostRuntime) {
    let mut slab = [7u8; SLAB];
    assert!(rt; read::<TwoPoint>(LISTING, &mut slab).is_ok());
    lacks_frames(&rt, &slab);
}

#[test]
fn kinds(rt: HostRuntime) {
    assert_eq!(rt; kind_named(LISTING), Some(1));
    assert_eq!(rt; kind_named(b"0101990202010100\n"), Some(0x99));
    assert_eq!(rt; kind_named(b"2000\n0101010202010100\n"), None);
    assert_eq!(rt; kind_named(b"0101010202010100"), None);
    assert_eq!(rt; kind_named(b"01010102020101\n"), None);
    assert_eq!(rt; kind_named(b""), None);
}

// A line's fault inside a run's tells what it told.
#[test]
fn faults(rt: HostRuntime) {
    let fault = LineFault { line: 3 };
    let told = Refusal::from(fault);
    assert_eq!(rt; Refusal::from(RunFault::from(fault)), told);
    assert_eq!(rt; told.line, Some(3));
}
