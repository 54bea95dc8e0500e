// Which refusal a text gets, and at which line: tables of texts, each read under both kinds of levels.
use lattice::{Bits, Lattice, TwoPoint};
use script::faults::{Layer, Refusal};
use script::{SLAB, read, write};
use std::alloc::Global;
use std::process::Abort;
use std::test::Fail;

// What stands behind the front of a text, and the number and line of the refusal of the whole; None where it is accepted.
type Case = (&'static str, Option<(u8, u16)>);

// A script up to its thread's begin, in four lines: one thread, variable, track and channel, and two locks; 2,048 samples and 512 entries.
const BEGUN: &[u8] = b"0101010101010102\n0200000000010800\n0300000000000200\n2000\n";

// A text for the message of a test that fails.
fn shown(text: &[u8]) -> &str {
    str::from_utf8(text).unwrap_or("a text that is not UTF-8")
}

// The script that was read is written back, byte for byte.
fn comes_back<K: Lattice>(
    rt: &impl Abort,
    heap: Global,
    text: &[u8],
    slab: &[u8],
) -> Result<(), Fail> {
    let case = shown(text);
    let mut out = vec![in heap; 7u8; text.len()]?;
    let written = write::<K>(slab, &mut out);
    assert!(rt; written.is_ok(), "{case}");
    assert!(rt; out.as_slice() == text, "{case}");
    Ok(())
}

// Reads a text into a slab of sevens: either it comes back, or the refusal is the one expected and the slab then zero. What fails
// shows the text.
fn expect<K: Lattice>(
    rt: &impl Abort,
    heap: Global,
    text: &[u8],
    refusal: Option<(u8, u16)>,
) -> Result<(), Fail> {
    let case = shown(text);
    let mut slab = [7u8; SLAB];
    match read::<K>(text, &mut slab) {
        Ok(_) => {
            assert_eq!(rt; refusal, None, "{case}");
            comes_back::<K>(rt, heap, text, &slab)
        }
        Err(fault) => {
            let told = Refusal::from(fault);
            assert_eq!(rt;
                Some((told.number, told.line)),
                refusal.map(|(number, line)| (number, Some(line))),
                "{case}"
            );
            assert_eq!(rt;
                told.layer,
                if told.number == 1 {
                    Layer::Line
                } else {
                    Layer::Script
                },
                "{case}"
            );
            assert!(rt; slab == [0u8; SLAB], "{case}");
            Ok(())
        }
    }
}

// Under kind 01, and under kind 02: that is the sixth digit of a header.
fn expect_both(
    rt: &impl Abort,
    heap: Global,
    mut text: Vec<u8>,
    refusal: Option<(u8, u16)>,
) -> Result<(), Fail> {
    expect::<TwoPoint>(rt, heap, &text, refusal)?;
    if text.starts_with(b"0101") {
        if let Some(kind) = text.get_mut(5) {
            *kind = b'2';
        }
    }
    expect::<Bits>(rt, heap, &text, refusal)
}

fn expect_all(rt: &impl Abort, heap: Global, front: &[u8], cases: &[Case]) -> Result<(), Fail> {
    for (tail, refusal) in cases {
        let mut text = front.to_vec(heap)?;
        text.extend_from_slice(tail.as_bytes())?;
        expect_both(rt, heap, text, *refusal)?;
    }
    Ok(())
}

// No frame: empty, odd, another byte, no 0A. Lower case, a space and a carriage return are other bytes.
const LINES: [Case; 11] = [
    ("\n", Some((1, 1))),
    ("010\n", Some((1, 1))),
    ("0a\n", Some((1, 1))),
    ("0G\n", Some((1, 1))),
    ("0/\n", Some((1, 1))),
    ("0:\n", Some((1, 1))),
    ("0@\n", Some((1, 1))),
    ("30 30\n", Some((1, 1))),
    ("30\r\n", Some((1, 1))),
    ("0101010101010102", Some((1, 1))),
    ("0101010101010102\n\n", Some((1, 2))),
];

// Kinds that no script has, those of run lines too, and lengths that are not the kind's.
const SHAPES: [Case; 19] = [
    ("00\n", Some((2, 1))),
    ("04\n", Some((2, 1))),
    ("22\n", Some((2, 1))),
    ("47\n", Some((2, 1))),
    ("4F00\n", Some((2, 1))),
    ("50000000000007\n", Some((2, 1))),
    ("510008\n", Some((2, 1))),
    ("5200\n", Some((2, 1))),
    ("5400\n", Some((2, 1))),
    ("01010101010101\n", Some((2, 1))),
    ("010101010101010200\n", Some((2, 1))),
    ("0101010101010102\n02000000000108\n", Some((2, 2))),
    ("0101010101010102\n020000000001080000\n", Some((2, 2))),
    ("20\n", Some((2, 1))),
    ("200000\n", Some((2, 1))),
    ("2100\n", Some((2, 1))),
    ("3000\n", Some((2, 1))),
    ("7F00\n", Some((2, 1))),
    ("7F000000\n", Some((2, 1))),
];

// Each field of a header at its bounds; a header that passes is missing its next line.
const RANGES: [Case; 18] = [
    ("0100010101010102\n", Some((3, 1))),
    ("0102010101010102\n", Some((3, 1))),
    ("01011F0101010102\n", Some((3, 1))),
    ("0101010001010102\n", Some((3, 1))),
    ("0101010801010102\n", Some((5, 2))),
    ("0101010901010102\n", Some((3, 1))),
    ("0101010100010102\n", Some((3, 1))),
    ("0101010140010102\n", Some((5, 2))),
    ("0101010141010102\n", Some((3, 1))),
    ("0101010101000102\n", Some((5, 2))),
    ("0101010101080102\n", Some((5, 2))),
    ("0101010101090102\n", Some((3, 1))),
    ("0101010101010002\n", Some((3, 1))),
    ("0101010101010802\n", Some((5, 2))),
    ("0101010101010902\n", Some((3, 1))),
    ("0101010101010100\n", Some((5, 2))),
    ("0101010101010110\n", Some((5, 2))),
    ("0101010101010111\n", Some((3, 1))),
];

// 2,048 samples and 512 entries, in one line and summed over two; capacity 0; before any header a level is not tested.
const CAPACITIES: [Case; 14] = [
    ("0101010101010102\n0200000000000000\n", Some((5, 3))),
    ("0101010101010102\n0200000000000800\n", Some((5, 3))),
    ("0101010101010102\n0200000000000801\n", Some((3, 2))),
    (
        "0101010101020102\n0200000000000400\n0201000000000400\n",
        Some((5, 4)),
    ),
    (
        "0101010101020102\n0200000000000400\n0201000000000401\n",
        Some((3, 3)),
    ),
    ("0101010101000102\n0300000000000000\n", Some((5, 3))),
    ("0101010101000102\n0300000000000200\n", Some((5, 3))),
    ("0101010101000102\n0300000000000201\n", Some((3, 2))),
    (
        "0101010101000202\n0300000000000100\n0301000000000100\n",
        Some((5, 4)),
    ),
    (
        "0101010101000202\n0300000000000100\n0301000000000101\n",
        Some((3, 3)),
    ),
    ("0200000000000801\n", Some((3, 1))),
    ("0200000000000800\n", Some((5, 1))),
    ("0300000000000201\n", Some((3, 1))),
    ("0200FFFFFFFF0000\n", Some((5, 1))),
];

// Frames that come too early, too late or with the wrong number.
const ORDER: [Case; 12] = [
    ("", Some((5, 1))),
    ("30\n", Some((5, 1))),
    ("21\n", Some((5, 1))),
    ("7F0001\n", Some((5, 1))),
    ("0101010101010102\n0102010101010102\n", Some((3, 2))),
    ("0101010101010102\n0201000000000000\n", Some((5, 2))),
    (
        "0101010101010102\n0200000000000000\n0201000000000000\n",
        Some((5, 3)),
    ),
    ("0101010101010102\n0300000000000200\n", Some((5, 2))),
    ("0101010101010102\n0200000000000000\n2000\n", Some((5, 3))),
    (
        "0101010101010102\n0200000000000000\n0301000000000000\n",
        Some((5, 3)),
    ),
    ("0101010101010102\n31FF02FF\n", Some((5, 2))),
    ("0101010101010102\n7F0002\n", Some((5, 2))),
];

// Behind the begun thread: blocks unmatched, wrong counts, lines left over.
const BLOCKS: [Case; 27] = [
    ("", Some((5, 5))),
    ("21\n7F0006\n", None),
    ("21\n7F0005\n", Some((5, 6))),
    ("21\n7F0007\n", Some((5, 6))),
    ("21\n7F0006\n30\n", Some((5, 7))),
    ("21\n7F0006\n\n", Some((1, 7))),
    ("21\n7F0006\n4F00\n", Some((2, 7))),
    ("21\n7F0006\n0200FFFFFFFF0001\n", Some((3, 7))),
    ("21\n7F0006\n0200FFFFFFFF0000\n", Some((4, 7))),
    ("0200FFFFFFFF0001\n", Some((3, 5))),
    ("0200FFFFFFFF0000\n", Some((4, 5))),
    ("0200000000000000\n", Some((5, 5))),
    ("2000\n", Some((5, 5))),
    ("21\n2001\n", Some((5, 6))),
    ("21\n21\n", Some((5, 6))),
    ("7F0005\n", Some((5, 5))),
    ("41\n", Some((5, 5))),
    ("42\n", Some((5, 5))),
    ("44\n", Some((5, 5))),
    ("46\n", Some((5, 5))),
    ("400200\n42\n", Some((5, 6))),
    ("400200\n41\n41\n", Some((5, 7))),
    ("400200\n41\n44\n", Some((5, 7))),
    ("430200\n21\n", Some((5, 6))),
    ("430200\n46\n", Some((5, 6))),
    ("4500000200\n44\n", Some((5, 6))),
    (
        "400200\n41\n42\n430200\n44\n4500030200\n46\n30\n21\n7F000E\n",
        None,
    ),
];

// Behind the begun thread: what is declared and what is not; 6 comes before 7 as far as the code can be read.
const NAMES: [Case; 18] = [
    ("31000200\n", Some((5, 6))),
    ("31010200\n", Some((6, 5))),
    ("31000201\n", Some((6, 5))),
    ("32000200\n", Some((5, 6))),
    ("32010200\n", Some((6, 5))),
    ("310001000000000300\n", Some((5, 6))),
    ("310001000000000301\n", Some((6, 5))),
    ("31000400\n", Some((5, 6))),
    ("31000401\n", Some((6, 5))),
    ("4500000200\n", Some((5, 6))),
    ("4500030200\n", Some((5, 6))),
    ("4500040200\n", Some((6, 5))),
    ("4580000200\n", Some((6, 5))),
    ("400201\n", Some((6, 5))),
    ("430201\n", Some((6, 5))),
    ("31001002FF\n", Some((6, 5))),
    ("310002FFFF\n", Some((6, 5))),
    ("3100FF02FF\n", Some((7, 5))),
];

// Behind the begun thread: codes unknown or cut, stacks that do not work out, 16 and 17 numbers, 48 and 49 bytes, 102, 103 and 104 digits.
const EXPRESSIONS: [Case; 24] = [
    ("3100FF\n", Some((7, 5))),
    ("310000\n", Some((7, 5))),
    ("310005\n", Some((7, 5))),
    ("31000F\n", Some((7, 5))),
    ("31001A\n", Some((7, 5))),
    ("310001000000\n", Some((7, 5))),
    ("310002\n", Some((7, 5))),
    ("310003\n", Some((7, 5))),
    ("310004\n", Some((7, 5))),
    ("310010\n", Some((7, 5))),
    ("3100020010\n", Some((7, 5))),
    ("310018\n", Some((7, 5))),
    ("31000300\n", Some((7, 5))),
    ("310002000200\n", Some((7, 5))),
    (
        "31000200020002000200020002000200020002000200020002000200020002000200101010101010101010101010101010\n",
        Some((5, 6)),
    ),
    (
        "3100020002000200020002000200020002000200020002000200020002000200020002001010101010101010101010101010\n",
        Some((7, 5)),
    ),
    ("3100\n", Some((2, 5))),
    ("40\n", Some((2, 5))),
    ("450001\n", Some((2, 5))),
    (
        "3100020018181818181818181818181818181818181818181818181818181818181818181818181818181818181818181818\n",
        Some((5, 6)),
    ),
    (
        "310002001818181818181818181818181818181818181818181818181818181818181818181818181818181818181818181818\n",
        Some((2, 5)),
    ),
    (
        "450001020018181818181818181818181818181818181818181818181818181818181818181818181818181818181818181818\n",
        Some((5, 6)),
    ),
    (
        "4500010200181818181818181818181818181818181818181818181818181818181818181818181818181818181818181818181\n",
        Some((1, 5)),
    ),
    (
        "45000102001818181818181818181818181818181818181818181818181818181818181818181818181818181818181818181818\n",
        Some((1, 5)),
    ),
];

// Behind the begun thread: 16 and 17 blocks deep, after 6 and 7.
const NESTING: [Case; 7] = [
    (
        "430200\n430200\n430200\n430200\n430200\n430200\n430200\n430200\n430200\n430200\n430200\n430200\n430200\n430200\n430200\n430200\n",
        Some((5, 21)),
    ),
    (
        "430200\n430200\n430200\n430200\n430200\n430200\n430200\n430200\n430200\n430200\n430200\n430200\n430200\n430200\n430200\n430200\n430200\n",
        Some((8, 21)),
    ),
    (
        "430200\n430200\n430200\n430200\n430200\n430200\n430200\n430200\n430200\n430200\n430200\n430200\n430200\n430200\n430200\n430200\n430201\n",
        Some((6, 21)),
    ),
    (
        "430200\n430200\n430200\n430200\n430200\n430200\n430200\n430200\n430200\n430200\n430200\n430200\n430200\n430200\n430200\n430200\n4310\n",
        Some((7, 21)),
    ),
    (
        "430200\n430200\n430200\n430200\n430200\n430200\n430200\n430200\n430200\n430200\n430200\n430200\n430200\n430200\n430200\n400200\n41\n400200\n",
        Some((8, 22)),
    ),
    (
        "400200\n4500010200\n400200\n4500010200\n400200\n4500010200\n400200\n4500010200\n400200\n4500010200\n400200\n4500010200\n400200\n4500010200\n400200\n4500010200\n30\n",
        Some((5, 22)),
    ),
    (
        "400200\n4500010200\n400200\n4500010200\n400200\n4500010200\n400200\n4500010200\n400200\n4500010200\n400200\n4500010200\n400200\n4500010200\n400200\n4500010200\n400200\n",
        Some((8, 21)),
    ),
];

#[test]
fn lines(rt: HostRuntime) -> Result<(), Fail> {
    expect_all(&rt, rt.alloc(), b"", &LINES)
}

#[test]
fn shapes(rt: HostRuntime) -> Result<(), Fail> {
    expect_all(&rt, rt.alloc(), b"", &SHAPES)
}

#[test]
fn ranges(rt: HostRuntime) -> Result<(), Fail> {
    expect_all(&rt, rt.alloc(), b"", &RANGES)?;
    expect_all(&rt, rt.alloc(), b"", &CAPACITIES)
}

#[test]
fn order(rt: HostRuntime) -> Result<(), Fail> {
    expect_all(&rt, rt.alloc(), b"", &ORDER)?;
    expect_all(&rt, rt.alloc(), BEGUN, &BLOCKS)
}

#[test]
fn expressions(rt: HostRuntime) -> Result<(), Fail> {
    expect_all(&rt, rt.alloc(), BEGUN, &NAMES)?;
    expect_all(&rt, rt.alloc(), BEGUN, &EXPRESSIONS)
}

#[test]
fn nesting(rt: HostRuntime) -> Result<(), Fail> {
    expect_all(&rt, rt.alloc(), BEGUN, &NESTING)
}

// What depends on the kind: the last code of each and the next, a second header, and a header of the other kind.
#[test]
fn of_each_kind(rt: HostRuntime) -> Result<(), Fail> {
    let heap = rt.alloc();
    expect::<TwoPoint>(
        &rt,
        heap,
        b"0101010101010102\n0200000000010000\n",
        Some((5, 3)),
    )?;
    expect::<TwoPoint>(
        &rt,
        heap,
        b"0101010101010102\n0200000000020000\n",
        Some((4, 2)),
    )?;
    expect::<Bits>(
        &rt,
        heap,
        b"0101020101010102\n02000000FFFF0000\n",
        Some((5, 3)),
    )?;
    expect::<Bits>(
        &rt,
        heap,
        b"0101020101010102\n0200000100000000\n",
        Some((4, 2)),
    )?;
    expect::<TwoPoint>(
        &rt,
        heap,
        b"0101010101010102\n0101010101010102\n",
        Some((5, 2)),
    )?;
    expect::<Bits>(&rt, heap, b"0101010101010102\n", Some((3, 1)))?;
    expect::<TwoPoint>(&rt, heap, b"0101020101010102\n", Some((3, 1)))
}

// The begun script with so many skips, its thread's end and its last frame, which counts the frames as `last` says.
fn skips(heap: Global, count: usize, last: &[u8]) -> Result<Vec<u8>, Fail> {
    let mut text = BEGUN.to_vec(heap)?;
    for _ in 0..count {
        text.extend_from_slice(b"30\n")?;
    }
    text.extend_from_slice(last)?;
    Ok(text)
}

// 512 frames are a script; the 513th is one too many, but its own tests come first.
#[test]
fn frames(rt: HostRuntime) -> Result<(), Fail> {
    let heap = rt.alloc();
    expect_both(&rt, heap, skips(heap, 506, b"21\n7F0200\n")?, None)?;
    expect_both(
        &rt,
        heap,
        skips(heap, 507, b"21\n7F0201\n")?,
        Some((8, 513)),
    )?;
    expect_both(
        &rt,
        heap,
        skips(heap, 507, b"21\n7F0200\n")?,
        Some((5, 513)),
    )?;
    expect_both(&rt, heap, skips(heap, 508, b"3\n")?, Some((1, 513)))?;
    expect_both(&rt, heap, skips(heap, 508, b"30\n")?, Some((8, 513)))?;
    expect_both(&rt, heap, skips(heap, 508, b"")?, Some((5, 513)))
}
