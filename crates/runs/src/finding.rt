// Whether the slabs lent to a call hold a state of its run.
ghost use Rattle.std.specs.Prelude.{◌≡◌, ◌≤◌, length, MatchOption};
ghost use Rattle.runs.specs.Finding.{HasNoState, SomeState, declares_same, is_long_enough, all_ports_agree as ports_same};
ghost use Rattle.runs.specs.Kept.{CodedLevels, Small, room};
ghost use Rattle.runs.specs.Memory.{memory};

use crate::declaring::{Declared, declarations};
use crate::{Core, Entry, MARKS, Mark, Port};
use lattice::Lattice;
use survey::{Step, tabulate};

// How many samples or entries the first n tracks or channels hold together. It takes the array and n, as the functions below and those
// that fill an array do: a slice is no plainer, since all that is stated of them is stated of the array and n.
pub(crate) fn room_of(ports: &[Port; 8], n: u8) -> usize
    requires few { n ≤ 8 }
    requires small { room ports.now n ≤ 2048 }
    ensures { result ≡ room ports.now n }
{
    ports[..n as usize].iter().map(|port| port.size).sum()
}

// Whether the first n tracks or channels have the same level and size: two of the fields of each, so no derive tells it.
fn same_ports(a: [Port; 8], b: [Port; 8], n: u8) -> bool
    requires { n ≤ 8 }
    ensures { result ≡ ports_same a b n }
{
    a.iter()
        .zip(&b)
        .take(n as usize)
        .all(|(p, q)| p.level == q.level && p.size == q.size)
}

impl Core {
    // Whether slabs of these lengths are long enough for the run.
    pub(crate) fn long_enough(&self, samples: usize, entries: usize, marks: usize) -> bool
        requires { Small self.now }
        ensures { result ≡ is_long_enough self.now samples entries marks }
    {
        room_of(&self.tracks, self.head.tracks) <= samples
            && room_of(&self.channels, self.head.channels) <= entries
            && MARKS <= marks
    }

    // Whether the run declares what a script does.
    fn declares(&self, script: Declared) -> bool
        ensures { result ≡ declares_same self.now script }
    {
        self.head == script.head
            && same_ports(self.tracks, script.tracks, self.head.tracks)
            && same_ports(self.channels, script.channels, self.head.channels)
    }

    // The steps of the script, if the slabs hold a state of this run; they are then the first of the table.
    pub(crate) fn state_in<'a, K: Lattice>(
        &self,
        script: &[u8],
        samples: &[i32],
        entries: &[Entry],
        marks: &[Mark],
        table: &'a mut [Step],
    ) -> Option<&'a [Step]>
        requires small { Small self.now }
        requires coded { CodedLevels K.order self.now }
        requires table { 512 ≤ length table.old }
        ensures { MatchOption result (HasNoState K.kind K.order (memory self.now script.now samples.now entries.now marks.now)) (λ steps. SomeState K.kind K.order (memory self.now script.now samples.now entries.now marks.now) steps.now) }
    {
        if !self.long_enough(samples.len(), entries.len(), marks.len()) {
            return None;
        }
        let declared = declarations::<K>(script)?;
        if !self.declares(declared) {
            return None;
        }
        tabulate(script, table);
        let steps = &table[..declared.frames as usize];
        self.fits::<K>(steps, marks).then_some(steps)
    }
}
