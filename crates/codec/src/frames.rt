// Frames, taken apart from their bytes; a frame borrows its expression.
ghost use Rattle.std.specs.Prelude.{◌≡◌, length};
ghost use Rattle.codec.specs.Slots.{perhaps};
ghost use Rattle.codec.specs.Shapes.{fitting, read_of};
ghost use Rattle.codec.specs.Frames.{frame_of};

// What a header declares, as its bytes stand: which versions and kinds there are is asked by the crates built on this one.
#[derive(Clone, Copy, Debug, Default, PartialEq)]
pub struct Head {
    pub version: u8,
    pub kind: u8,
    pub threads: u8,
    pub variables: u8,
    pub tracks: u8,
    pub channels: u8,
    pub locks: u8,
}

// What a frame says of a track or of a channel.
#[derive(Clone, Copy, Debug, PartialEq)]
pub struct Store {
    pub number: u8,
    pub level: u32,
    pub capacity: u16,
}

#[derive(Clone, Copy)]
pub enum Frame<'a> {
    Header(Head),
    Track(Store),
    Channel(Store),
    Thread { number: u8 },
    ThreadEnd,
    Skip,
    Assign { variable: u8, expression: &'a [u8] },
    Put { channel: u8, expression: &'a [u8] },
    If { condition: &'a [u8] },
    Else,
    EndIf,
    While { condition: &'a [u8] },
    EndWhile,
    With { locks: u16, condition: &'a [u8] },
    EndWith,
    Last { frames: u16 },
}

// The most bytes of an expression.
pub const LONGEST: usize = 48;

// Whether bytes are as many as an expression may have.
fn fits(expression: &[u8]) -> bool
    ensures { result ≡ fitting (length expression.now) }
{
    (1..=LONGEST).contains(&expression.len())
}

// The frame that bytes are; None where the kind is unknown or the length is not the kind's. One pattern for each kind, as the format has them.
pub fn read_frame(bytes: &[u8]) -> Option<Frame<'_>>
    ensures { perhaps read_of result ≡ frame_of bytes.now }
{
    match bytes {
        [
            0x01,
            version,
            kind,
            threads,
            variables,
            tracks,
            channels,
            locks,
        ] => Some(Frame::Header(Head {
            version: *version,
            kind: *kind,
            threads: *threads,
            variables: *variables,
            tracks: *tracks,
            channels: *channels,
            locks: *locks,
        })),
        [0x02, number, a, b, c, d, high, low] => Some(Frame::Track(Store {
            number: *number,
            level: u32::from_be_bytes([*a, *b, *c, *d]),
            capacity: u16::from_be_bytes([*high, *low]),
        })),
        [0x03, number, a, b, c, d, high, low] => Some(Frame::Channel(Store {
            number: *number,
            level: u32::from_be_bytes([*a, *b, *c, *d]),
            capacity: u16::from_be_bytes([*high, *low]),
        })),
        [0x20, number] => Some(Frame::Thread { number: *number }),
        [0x21] => Some(Frame::ThreadEnd),
        [0x30] => Some(Frame::Skip),
        [0x31, variable, expression @ ..] if fits(expression) => Some(Frame::Assign {
            variable: *variable,
            expression,
        }),
        [0x32, channel, expression @ ..] if fits(expression) => Some(Frame::Put {
            channel: *channel,
            expression,
        }),
        [0x40, condition @ ..] if fits(condition) => Some(Frame::If { condition }),
        [0x41] => Some(Frame::Else),
        [0x42] => Some(Frame::EndIf),
        [0x43, condition @ ..] if fits(condition) => Some(Frame::While { condition }),
        [0x44] => Some(Frame::EndWhile),
        [0x45, high, low, condition @ ..] if fits(condition) => Some(Frame::With {
            locks: u16::from_be_bytes([*high, *low]),
            condition,
        }),
        [0x46] => Some(Frame::EndWith),
        [0x7F, high, low] => Some(Frame::Last {
            frames: u16::from_be_bytes([*high, *low]),
        }),
        _ => None,
    }
}
