// Reads a script from standard input, checks it, writes it back, and says in plain words what was done and found.
#![tactic(auto)]

use crate::account::{Account, refused};
use crate::input::read_input;
use lattice::{Bits, Lattice, TwoPoint};
use protocol::intake::{Kind, kind_for_text, short_enough};
use script::{SLAB, read};

mod account;
mod input;
mod words;

fn report<K: Lattice>(rt: &HostRuntime, kind: Kind, text: &[u8]) -> anyhow::Result<()> {
    let mut slab = vec![in rt.alloc(); 0u8; SLAB]?;
    match read::<K>(text, &mut slab) {
        Ok(accepted) => {
            let account = Account {
                kind,
                text,
                slab: &slab,
                declared: accepted.declarations(),
            };
            account.tell::<K>(rt)
        }
        Err(fault) => refused(rt, fault),
    }
}

fn run(rt: &HostRuntime) -> anyhow::Result<()> {
    let input = read_input(rt.alloc(), rt.stdin())?;
    if let Err(fault) = short_enough(&input) {
        return refused(rt, fault);
    }
    // A kind becomes a type by an arm for each. A trait to call through, for this program and sledge, would be no plainer.
    let kind = kind_for_text(&input);
    match kind {
        Kind::TwoPoint => report::<TwoPoint>(rt, kind, &input),
        Kind::Bits => report::<Bits>(rt, kind, &input),
    }
}

fn main(rt: HostRuntime) -> anyhow::Result<()> {
    run(&rt)
}
