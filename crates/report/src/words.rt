// Levels in plain words.
use lattice::OPEN;
use protocol::intake::Kind;
use std::fmt;

// A level with its name: open, closed, or the bits that it has.
#[derive(Drop)]
pub struct Level {
    pub code: u32,
    pub kind: Kind,
}

impl fmt::Display for Level {
    fn fmt<W: fmt::Write>(&self, f: &mut fmt::Formatter<W>) -> fmt::Result {
        let code = self.code;
        write!(f, "{code:08X} ")?;
        match self.kind {
            _ if code == OPEN => f.write_str("(open)"),
            Kind::TwoPoint => f.write_str("(closed)"),
            Kind::Bits => {
                f.write_str("(bits")?;
                for bit in (0..16u32).filter(|bit| code >> *bit & 1 == 1) {
                    write!(f, " {bit}")?;
                }
                f.write_str(")")
            }
        }
    }
}
