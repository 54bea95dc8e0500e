// Schedulers: told which threads are ready, one answers a thread or a rest.
#![tactic(auto)]

ghost use Rattle.std.specs.Prelude.{◌≡◌, ◌+◌, ◌%◌, ◌≤◌, false, get_or, if◌then◌else◌, slice_index_or};
ghost use Rattle.std.proofs.Math.Option.{none, some};
ghost use Rattle.scheduler.specs.Turns.{Meaning, Obedient, answered};
ghost use Rattle.scheduler.specs.Schedulers.{first_after, pick_list_turn, round_robin_turn};
ghost use Rattle.scheduler.specs.Laws.{pick_list_obeys, round_robin_obeys};

// A scheduler changes nothing but its own state and never refuses.
pub trait Scheduler: Sized {
    // Its answer and its next state, from its state and the set of ready threads alone.
    ghost meaning: { Meaning Self };

    // What each scheduler proves: its answer is ready, and it rests where no thread is.
    ghost obeys: { Obedient meaning };

    fn choose(&mut self, ready: &[bool]) -> Option<u8>
        ensures answer { answered result ≡ (meaning self.old ready.now).0 }
        ensures next { self.new ≡ (meaning self.old ready.now).1 };
}

// Takes the first ready thread after the one that it last chose, 0 to 7 in a ring.
#[derive(Drop)]
pub struct RoundRobin {
    last: u8,
}

impl RoundRobin {
    // Before any choice the last is 7, so that thread 0 comes first.
    pub fn new() -> RoundRobin
        ensures { result ≡ record { last = 7 } }
    {
        RoundRobin { last: 7 }
    }
}

// Goes through the first 4,096 picks of a list, one at each turn: the thread that is picked if it is ready, else a rest.
#[derive(Drop)]
pub struct PickList<'a> {
    picks: &'a [u8],

    // A place in the list, and no slice of what is left: the contract of `new` and the meaning name the list and the place.
    at: usize,
}

impl<'a> PickList<'a> {
    // Before its first pick.
    pub fn new(picks: &'a [u8]) -> PickList<'a>
        ensures picks { result.picks.now ≡ picks.now }
        ensures first { result.at ≡ 0 }
    {
        PickList { picks, at: 0 }
    }
}

// Whether a thread is in the set.
fn is_ready(ready: &[bool], thread: u8) -> bool
    ensures { result ≡ slice_index_or ready.now thread false }
{
    ready.get(usize::from(thread)).copied().unwrap_or(false)
}

// The thread so many places after another, in a ring of eight.
fn following(thread: u8, places: u16) -> u8
    requires { places ≤ 8 }
    ensures { result ≡ (thread + places) % 8 }
{
    ((u16::from(thread) + places) % 8) as u8
}

// The first ready thread after another, in that ring.
fn first_ready(ready: &[bool], thread: u8) -> Option<u8>
    ensures { answered result ≡ first_after 8 ready.now thread }
{
    (1..9)
        .map(|places| following(thread, places))
        .find(|next| is_ready(ready, *next))
}

impl Scheduler for RoundRobin {
    ghost meaning = { round_robin_turn };

    ghost obeys = { round_robin_obeys };

    fn choose(&mut self, ready: &[bool]) -> Option<u8> {
        let next = first_ready(ready, self.last);
        self.last = next.unwrap_or(self.last);
        next
    }
}

// A pick, if that thread is ready.
fn ready_pick(ready: &[bool], pick: u8) -> Option<u8>
    ensures { answered result ≡ (if get_or ready.now pick false then some pick else none) }
{
    is_ready(ready, pick).then_some(pick)
}

impl<'a> Scheduler for PickList<'a> {
    ghost meaning = { pick_list_turn };

    ghost obeys = { pick_list_obeys };

    fn choose(&mut self, ready: &[bool]) -> Option<u8> {
        let counted = &self.picks[..self.picks.len().min(4096)];
        let pick = *counted.get(self.at)?;
        self.at += 1;
        ready_pick(ready, pick)
    }
}

#[cfg(test)]
mod tests {
    use super::*;

    // Threads 1 and 2 in turn; a rest leaves the last one chosen.
    #[test]
    fn rounds(rt: HostRuntime) {
        let mut round = RoundRobin::new();
        assert_eq!(rt; round.choose(&[false, true, true]), Some(1));
        assert_eq!(rt; round.choose(&[true, true, true]), Some(2));
        assert_eq!(rt; round.choose(&[false, false, false]), None);
        assert_eq!(rt; round.choose(&[true, false, true]), Some(0));
        assert_eq!(rt; round.choose(&[true]), Some(0));
    }

    // A pick that is not ready or no thread is a rest, and uses the pick up; past the end it rests.
    #[test]
    fn picks(rt: HostRuntime) {
        let mut list = PickList::new(&[1, 0, 9, 1]);
        assert_eq!(rt; list.choose(&[true, true]), Some(1));
        assert_eq!(rt; list.choose(&[false, true]), None);
        assert_eq!(rt; list.choose(&[true, true]), None);
        assert_eq!(rt; list.choose(&[true, true]), Some(1));
        assert_eq!(rt; list.choose(&[true, true]), None);
    }

    // Only the first 4,096 picks count.
    #[test]
    fn long_lists(rt: HostRuntime) {
        let picks = [0u8; 4_100];
        let mut list = PickList::new(&picks);
        for _ in 0..4_096 {
            assert_eq!(rt; list.choose(&[true]), Some(0));
        }
        assert_eq!(rt; list.choose(&[true]), None);
    }
}
