// Kinds of security levels: a level is a 32-bit code, and code 0 is the open level, which flows to every other.
#![tactic(auto)]

ghost use Rattle.std.specs.Prelude.{◌≡◌, ℕ};
ghost use Rattle.lattice.specs.Levels.{Levels, Lawful};
ghost use Rattle.lattice.specs.Orders.{two_point, bit_sets};
ghost use Rattle.std.proofs.Common.{rules};
ghost use Rattle.lattice.specs.Ors.{bits_laws};

// The bottom of every kind.
pub const OPEN: u32 = 0;

// A kind of levels. Every function answers for any two codes, keeps no state and refuses nothing.
pub trait Lattice {
    // The number by which a script's header names the kind.
    ghost kind: { ℕ };

    // Which codes it has, which flows to which, and the join, as functions on numbers.
    ghost order: { Levels };

    fn number() -> u8
        ensures { result ≡ kind };

    // Whether a code is one of this kind.
    fn has(code: u32) -> bool
        ensures { result ≡ order.has code };

    // Whether what has level `from` may be seen at level `to`.
    fn flows(from: u32, to: u32) -> bool
        ensures { result ≡ order.flows from to };

    // The least level that both flow to.
    fn join(a: u32, b: u32) -> u32
        ensures { result ≡ order.join a b };

    // What each kind proves of its codes; code that is generic over the kind uses nothing else.
    ghost lawful: { Lawful order };
}

// Kind 01: open (0) and closed (1).
#[derive(Clone, Copy)]
pub struct TwoPoint;

impl Lattice for TwoPoint {
    ghost kind = { 1 };

    ghost order = { two_point };

    ghost lawful = { Prim.search rules };

    fn number() -> u8 {
        1
    }

    fn has(code: u32) -> bool {
        code <= 1
    }

    fn flows(from: u32, to: u32) -> bool {
        from <= to
    }

    fn join(a: u32, b: u32) -> u32 {
        a.max(b)
    }
}

// Kind 02: sets of sixteen bits, a customer or an interest each; a level flows to those that have all of its bits.
#[derive(Clone, Copy)]
pub struct Bits;

impl Lattice for Bits {
    ghost kind = { 2 };

    ghost order = { bit_sets };

    ghost lawful = { bits_laws };

    fn number() -> u8 {
        2
    }

    fn has(code: u32) -> bool {
        code <= 0xFFFF
    }

    fn flows(from: u32, to: u32) -> bool {
        from & to == from
    }

    fn join(a: u32, b: u32) -> u32 {
        a | b
    }
}

#[cfg(test)]
mod tests {
    use super::*;

    #[test]
    fn two_points(rt: HostRuntime) {
        assert!(rt; TwoPoint::has(1) && !TwoPoint::has(2));
        assert!(rt; TwoPoint::flows(OPEN, 1) && TwoPoint::flows(1, 1) && !TwoPoint::flows(1, OPEN));
        assert_eq!(rt; TwoPoint::join(1, OPEN), 1);
    }

    #[test]
    fn bit_sets(rt: HostRuntime) {
        assert!(rt; Bits::has(0xFFFF) && !Bits::has(0x1_0000));
        assert_eq!(rt; Bits::join(5, 3), 7);
        assert!(rt; Bits::flows(5, 7) && Bits::flows(OPEN, 3) && !Bits::flows(5, 3));
    }
}
