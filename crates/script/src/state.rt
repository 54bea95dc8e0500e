// The state of reading, and the tests of each kind of frame in their order.
ghost use Rattle.std.specs.Prelude.{◌≡◌, suc, ◌+◌, ◌^◌, ◌≤◌, ◌&&◌, [], ◌∷◌, ◌++◌, ◌==◌, nat_lt, false, MatchOption, MatchResult};
ghost use Rattle.std.proofs.Math.Option.{none, some};
ghost use Rattle.codec.specs.Frames.{frame_of};
ghost use Rattle.codec.specs.Frames.Frame.{header as m_header, track as m_track, channel as m_channel, thread as m_thread, thread_end as m_thread_end, skip as m_skip, last as m_last};
ghost use Rattle.codec.specs.Shapes.{head_of, read_of};
ghost use Rattle.codec.specs.Slots.{perhaps};
ghost use Rattle.script.specs.Format.{all_channels, all_threads, all_tracks, enter, first_fault, has_level, head_in_range, innermost, is_ended, is_inside, is_next, is_outside, is_start, leave, none_open, nothing_seen, or_fault_2, room, tag, tests};
ghost use Rattle.script.specs.Format.Block.{before_else, behind_else};
ghost use Rattle.script.specs.Format.Phase.{start, outside, inside};
ghost use Rattle.script.specs.Refusals.{cause_number};
ghost use Rattle.script.specs.Takings.{Behind, line_fault};
ghost use Rattle.script.specs.Stages.{Around, Entered, Judged, Passes, block_of, declaring, expression_asks, held, numbered, phase_of, seen_of, store_asks, with_store};

use crate::blocks::{Block, Opened};
use crate::faults::Cause;
use crate::{Declarations, ENTRIES, FRAMES, SAMPLES};
use codec::expressions::{leaves_one_number, names_declared};
use codec::frames::{Frame, Head, Store, read_frame};
use lattice::Lattice;

// Before the header, outside the threads, inside one with its open blocks, behind the last frame.
#[derive(Clone, Copy)]
pub(crate) enum Stage {
    Start,
    Outside,
    Inside(Opened),
    Ended,
}

// How many tracks or channels were declared so far, and how many samples or entries all of them take.
#[derive(Clone, Copy, Default)]
pub(crate) struct Stores {
    pub count: u8,
    pub used: u16,
}

// What was read so far: the header, the tracks and channels, how many threads were begun, and how many frames were read.
// That these are at most 512 stands in contracts and in no ghost field: a struct with one takes no `..`, by which each state below is the one before it but for a part.
#[derive(Clone, Copy)]
pub(crate) struct State {
    pub stage: Stage,
    pub head: Head,
    pub tracks: Stores,
    pub channels: Stores,
    pub threads: u8,
    pub frames: u16,
}

// Whether a number is the next of so many declared.
fn is_next_of(i: u8, seen: u8, declared: u8) -> bool
    ensures { result ≡ is_next i seen declared }
{
    i == seen && seen < declared
}

// Whether a header is in its ranges, and of this kind of levels.
fn in_range<K: Lattice>(head: Head) -> bool
    ensures { result ≡ head_in_range K.kind (head_of head) }
{
    matches!(
        head,
        Head {
            version: 1,
            kind,
            threads: 1..=8,
            variables: 1..=64,
            tracks: 0..=8,
            channels: 1..=8,
            locks: 0..=16,
        } if kind == K::number()
    )
}

// Whether a mask names only locks that are declared.
#[tactic(auto, using(crate::proofs::Masks::shifted))]
fn locks_declared(locks: u16, declared: u8) -> bool
    ensures { result ≡ nat_lt locks (2 ^ declared) }
{
    locks.checked_shr(u32::from(declared)).unwrap_or(0) == 0
}

impl State {
    // Behind a header, with nothing else declared yet.
    fn under(head: Head) -> State
        ensures phase { phase_of result ≡ outside }
        ensures seen { seen_of result ≡ record nothing_seen { head = head_of head } }
    {
        State {
            stage: Stage::Outside,
            head,
            tracks: Stores::default(),
            channels: Stores::default(),
            threads: 0,
            frames: 0,
        }
    }

    // Before the first line: nothing is declared.
    pub(crate) fn at_first() -> State
        ensures phase { phase_of result ≡ start }
        ensures seen { seen_of result ≡ nothing_seen }
        ensures few { result.frames ≤ 512 }
    {
        State {
            stage: Stage::Start,
            ..State::under(Head::default())
        }
    }

    fn at_start(self) -> bool
        ensures { result ≡ is_start (phase_of self) }
    {
        matches!(self.stage, Stage::Start)
    }

    fn outside(self) -> bool
        ensures { result ≡ is_outside (phase_of self) }
    {
        matches!(self.stage, Stage::Outside)
    }

    fn inside(self) -> bool
        ensures { result ≡ is_inside (phase_of self) }
    {
        matches!(self.stage, Stage::Inside(_))
    }

    pub(crate) fn ended(self) -> bool
        ensures { result ≡ is_ended (phase_of self) }
    {
        matches!(self.stage, Stage::Ended)
    }

    // Whether a level is of the kind; before the header there is no kind yet, so every level passes.
    fn allows<K: Lattice>(self, level: u32) -> bool
        ensures { result ≡ has_level K.order (phase_of self) level }
    {
        self.at_start() || K::has(level)
    }

    fn tracks_done(self) -> bool
        ensures { result ≡ all_tracks (phase_of self) (seen_of self) }
    {
        self.outside() && self.tracks.count == self.head.tracks
    }

    fn channels_done(self) -> bool
        ensures { result ≡ all_channels (phase_of self) (seen_of self) }
    {
        self.tracks_done() && self.channels.count == self.head.channels
    }

    fn threads_done(self) -> bool
        ensures { result ≡ all_threads (phase_of self) (seen_of self) }
    {
        self.channels_done() && self.threads == self.head.threads
    }

    // Whether a thread is begun and all of its blocks are closed.
    fn nothing_open(self) -> bool
        ensures { result ≡ none_open (phase_of self) }
    {
        matches!(self.stage, Stage::Inside(opened) if opened.is_empty())
    }

    // The blocks around the innermost open one; None where that is not of this sort.
    fn around(self, block: Block) -> Option<Opened>
        ensures { MatchOption result (innermost (block_of block) (phase_of self) ≡ false) (Around (block_of block) (phase_of self)) }
    {
        let Stage::Inside(opened) = self.stage else {
            return None;
        };
        let (last, around) = opened.pop()?;
        (last == block).then_some(around)
    }

    // The open blocks at a command, by the tests of its place and expression; `named` says whether its other name is declared.
    fn expression(self, named: bool, code: &[u8]) -> Result<Opened, Cause>
        ensures { MatchResult result (λ o. (first_fault (expression_asks self named code.now) ≡ none) × (phase_of self ≡ inside (held o))) (λ c. first_fault (expression_asks self named code.now) ≡ some (cause_number c)) }
    {
        let Stage::Inside(opened) = self.stage else {
            return Err(Cause::Order);
        };
        if !(named && names_declared(code, &self.head)) {
            return Err(Cause::Undeclared);
        }
        if !leaves_one_number(code) {
            return Err(Cause::Expression);
        }
        Ok(opened)
    }

    fn header<K: Lattice>(self, head: Head) -> Result<State, Cause>
        ensures { Passes (numbered 3 (head_in_range K.kind (head_of head)) ∷ numbered 5 (is_start (phase_of self)) ∷ []) self (m_header (head_of head)) result }
    {
        if !in_range::<K>(head) {
            return Err(Cause::Range);
        }
        if !self.at_start() {
            return Err(Cause::Order);
        }
        Ok(State {
            frames: self.frames,
            ..State::under(head)
        })
    }

    // One more track or channel behind these, of so many declared and with room for so much in all.
    fn store<K: Lattice>(
        self,
        stores: Stores,
        store: Store,
        declared: u8,
        limit: u16,
        placed: bool,
    ) -> Result<Stores, Cause>
        ensures { MatchResult result (λ t. (first_fault (store_asks K.order self stores store declared limit placed) ≡ none) × (t ≡ with_store stores store)) (λ c. first_fault (store_asks K.order self stores store declared limit placed) ≡ some (cause_number c)) }
    {
        let used = stores
            .used
            .checked_add(store.capacity)
            .filter(|used| *used <= limit)
            .ok_or(Cause::Range)?;
        if !self.allows::<K>(store.level) {
            return Err(Cause::Level);
        }
        if !(placed && is_next_of(store.number, stores.count, declared)) {
            return Err(Cause::Order);
        }
        Ok(Stores {
            count: stores.count + 1,
            used,
        })
    }

    fn track<K: Lattice>(self, store: Store) -> Result<State, Cause>
        ensures { Passes (store_asks K.order self self.tracks store self.head.tracks 2048 (is_outside (phase_of self))) self (m_track store.number store.level store.capacity) result }
    {
        let placed = self.outside();
        let tracks = self.store::<K>(self.tracks, store, self.head.tracks, SAMPLES as u16, placed)?;
        Ok(State { tracks, ..self })
    }

    fn channel<K: Lattice>(self, store: Store) -> Result<State, Cause>
        ensures { Passes (store_asks K.order self self.channels store self.head.channels 512 (all_tracks (phase_of self) (seen_of self))) self (m_channel store.number store.level store.capacity) result }
    {
        let placed = self.tracks_done();
        let channels = self.store::<K>(
            self.channels,
            store,
            self.head.channels,
            ENTRIES as u16,
            placed,
        )?;
        Ok(State { channels, ..self })
    }

    fn thread(self, number: u8) -> Result<State, Cause>
        ensures { Passes (numbered 5 (all_channels (phase_of self) (seen_of self) && is_next number self.threads self.head.threads) ∷ []) self (m_thread number) result }
    {
        if !(self.channels_done() && is_next_of(number, self.threads, self.head.threads)) {
            return Err(Cause::Order);
        }
        Ok(State {
            stage: Stage::Inside(Opened::none()),
            threads: self.threads + 1,
            ..self
        })
    }

    fn thread_end(self) -> Result<State, Cause>
        ensures { Passes (numbered 5 (none_open (phase_of self)) ∷ []) self m_thread_end result }
    {
        if !self.nothing_open() {
            return Err(Cause::Order);
        }
        Ok(State {
            stage: Stage::Outside,
            ..self
        })
    }

    fn skip(self) -> Result<State, Cause>
        ensures { Passes (numbered 5 (is_inside (phase_of self)) ∷ []) self m_skip result }
    {
        if !self.inside() {
            return Err(Cause::Order);
        }
        Ok(self)
    }

    // An assign or a put.
    fn command(self, named: bool, code: &[u8]) -> Result<State, Cause>
        ensures { Passes (expression_asks self named code.now) self m_skip result }
    {
        self.expression(named, code)?;
        Ok(self)
    }

    // An if, a while or a with.
    fn opening(self, block: Block, named: bool, code: &[u8]) -> Result<State, Cause>
        ensures { Entered (expression_asks self named code.now ++ (numbered 8 (room (phase_of self)) ∷ [])) self (enter (block_of block) (phase_of self)) result }
    {
        let opened = self.expression(named, code)?;
        if !opened.has_room() {
            return Err(Cause::Limit);
        }
        Ok(State {
            stage: Stage::Inside(opened.push(block)),
            ..self
        })
    }

    // The else of an if.
    fn turning(self) -> Result<State, Cause>
        ensures { Entered (numbered 5 (innermost before_else (phase_of self)) ∷ []) self (enter behind_else (leave (phase_of self))) result }
    {
        let around = self.around(Block::BeforeElse).ok_or(Cause::Order)?;
        Ok(State {
            stage: Stage::Inside(around.push(Block::BehindElse)),
            ..self
        })
    }

    // The end of an if, a while or a with.
    fn closing(self, block: Block) -> Result<State, Cause>
        ensures { Entered (numbered 5 (innermost (block_of block) (phase_of self)) ∷ []) self (leave (phase_of self)) result }
    {
        let around = self.around(block).ok_or(Cause::Order)?;
        Ok(State {
            stage: Stage::Inside(around),
            ..self
        })
    }

    // The last frame, which has the number of all frames.
    fn last(self, frames: u16) -> Result<State, Cause>
        ensures { Passes (numbered 5 (all_threads (phase_of self) (seen_of self) && frames == suc self.frames) ∷ []) self (m_last frames) result }
    {
        if !(self.threads_done() && u32::from(frames) == u32::from(self.frames) + 1) {
            return Err(Cause::Order);
        }
        Ok(State {
            stage: Stage::Ended,
            ..self
        })
    }

    // The state behind a frame but for the count of frames, or what the frame itself is refused for: its first test that fails.
    fn behind<K: Lattice>(self, frame: Frame<'_>) -> Result<State, Cause>
        ensures { Passes (tests K.kind K.order (phase_of self) (seen_of self) (read_of frame.entry).frame (read_of frame.entry).whole) self (read_of frame.entry).frame result }
    {
        match frame {
            Frame::Header(head) => self.header::<K>(head),
            Frame::Track(store) => self.track::<K>(store),
            Frame::Channel(store) => self.channel::<K>(store),
            Frame::Thread { number } => self.thread(number),
            Frame::ThreadEnd => self.thread_end(),
            Frame::Skip => self.skip(),
            Frame::Assign {
                variable,
                expression,
            } => { self.command(variable < self.head.variables, expression) }
            Frame::Put {
                channel,
                expression,
            } => { self.command(channel < self.head.channels, expression) }
            Frame::If { condition } => self.opening(Block::BeforeElse, true, condition),
            Frame::Else => self.turning(),
            Frame::EndIf => self.closing(Block::BehindElse),
            Frame::While { condition } => self.opening(Block::InWhile, true, condition),
            Frame::EndWhile => self.closing(Block::InWhile),
            Frame::With { locks, condition } => {
                self.opening(
                    Block::InWith,
                    locks_declared(locks, self.head.locks),
                    condition,
                )
            }
            Frame::EndWith => self.closing(Block::InWith),
            Frame::Last { frames } => self.last(frames),
        }
    }

    // The state behind a frame, or what it is refused for; that it is one too many is tested last.
    #[tactic(auto, using(crate::proofs::Judging::one_too_many, crate::proofs::Judging::no_fault, crate::proofs::Judging::counted))]
    fn judge<K: Lattice>(self, frame: Frame<'_>) -> Result<State, Cause>
        ensures { Judged K.kind K.order self (read_of frame.entry) result }
    {
        let next = self.behind::<K>(frame)?;
        if self.frames >= FRAMES {
            return Err(Cause::Limit);
        }
        Ok(State {
            frames: self.frames + 1,
            ..next
        })
    }

    // The state behind the frame that these bytes are, or what they are refused for.
    #[tactic(auto, using(crate::proofs::Judging::taken))]
    pub(crate) fn take<K: Lattice>(self, bytes: &[u8]) -> Result<State, Cause>
        ensures { MatchResult result (Behind K.kind K.order self (or_fault_2 (frame_of bytes.now))) (λ c. line_fault K.kind K.order self (or_fault_2 (frame_of bytes.now)) ≡ some (cause_number c)) }
    {
        self.judge::<K>(read_frame(bytes).ok_or(Cause::Shape)?)
    }

    // What was declared so far.
    pub(crate) fn declarations(self) -> Declarations
        ensures { result ≡ declaring self }
    {
        Declarations {
            head: self.head,
            samples: self.tracks.used,
            entries: self.channels.used,
            frames: self.frames,
        }
    }
}
