// What cuts a line's answer, or a whole session, short.
ghost use Rattle.std.specs.Prelude.{◌≡◌, OnOk};
ghost use Rattle.script.specs.declared.faults.RunFault.TheVariants.{InScript};
ghost use Rattle.script.specs.declared.faults.ScriptFault.TheVariants.{InLine};
ghost use Rattle.sledge.specs.declared.stop.Stop.TheVariants.{NoMemory, Refused};
ghost use Rattle.sledge.specs.Sessions.{Told};

use protocol::replies::{put_reply, refused};
use script::faults::{LineFault, RunFault, ScriptFault};
use std::alloc::AllocError;

// A refusal, or want of memory for an answer.
#[derive(Clone, Copy)]
pub enum Stop {
    Refused(RunFault),
    NoMemory(AllocError),
}

impl Stop {
    // Tells a refusal, at this line where it has none itself; want of memory stays what it is.
    pub fn tell(self, out: &mut Vec<u8>, line: u16) -> Result<(), AllocError>
        ensures { OnOk result (Told self line out.old.items out.new.items) }
    {
        match self {
            Stop::Refused(fault) => put_reply(out, refused(fault, line)),
            Stop::NoMemory(error) => Err(error),
        }
    }
}

impl From<RunFault> for Stop {
    ghost from_gives = { λ fault r. r ≡ Refused fault };

    fn from(fault: RunFault) -> Stop {
        Stop::Refused(fault)
    }
}

impl From<ScriptFault> for Stop {
    ghost from_gives = { λ fault r. r ≡ Refused (InScript fault) };

    fn from(fault: ScriptFault) -> Stop {
        Stop::Refused(RunFault::from(fault))
    }
}

impl From<LineFault> for Stop {
    ghost from_gives = { λ fault r. r ≡ Refused (InScript (InLine fault)) };

    fn from(fault: LineFault) -> Stop {
        Stop::Refused(RunFault::from(fault))
    }
}

impl From<AllocError> for Stop {
    ghost from_gives = { λ error r. r ≡ NoMemory error };

    fn from(error: AllocError) -> Stop {
        Stop::NoMemory(error)
    }
}

#[cfg(test)]
mod tests {
    use super::*;
    use std::test::Fail;

    // A refusal is told, and one that has no line itself at the line given. Want of memory is passed on, and writes nothing.
    #[test]
    fn tells(rt: HostRuntime) -> Result<(), Fail> {
        let mut out = Vec::new(rt.alloc());
        Stop::from(RunFault::NoSuch).tell(&mut out, 7)?;
        Stop::from(LineFault { line: 2 }).tell(&mut out, 7)?;
        let error = AllocError;
        assert_eq!(rt; Stop::from(error).tell(&mut out, 7).err(), Some(error));
        let told: &[u8] = b"6F0A0007\n6F010002\n";
        assert!(rt; out.as_slice() == told);
        Ok(())
    }
}
