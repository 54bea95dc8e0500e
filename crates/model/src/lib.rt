// The model of the monitor and its theorems. Each function's contract is a theorem: without its proof the crate is refused.
#![tactic(auto)]

ghost use Rattle.lattice.specs.Levels.{Lawful};
ghost use Rattle.lattice.specs.Orders.{two_point};
ghost use Rattle.model.specs.Secrecy.{EveryRunIsSecret, EveryViewIsBlind};
ghost use Rattle.model.specs.Inspection.{EveryTypedRunIsUnaltered};
ghost use Rattle.model.specs.Places.{PlacesAgree};
ghost use Rattle.model.specs.Fitting.{PlacesFit};
ghost use Rattle.model.specs.Follows.{Follows};
ghost use Rattle.model.specs.Together.{GivesItsVerdicts};
ghost use Rattle.model.specs.Bottoms.{BottomsAreNotRead};
ghost use Rattle.model.specs.Table.{AsShown};
ghost use Rattle.model.specs.Runs.{CallsReach};
ghost use Rattle.model.specs.Differences.{Differs};
ghost use Rattle.model.specs.Examples.{Examples};
ghost use Rattle.model.specs.Listing.{RunsAsListed};
ghost use Rattle.model.specs.Shortcuts.{ShortcutsLeak};

use scheduler::Scheduler;

// What a reader is answered does not depend on what may not flow to that reader: every kind of levels, every script, this scheduler.
pub fn secrecy_stands<S: Scheduler>()
    ensures { EveryRunIsSecret S.Scheduler.meaning }
{}

// The same of any view, so of readers who pool what they see; it takes four laws of the kind of levels and no more.
pub fn every_view_is_blind<S: Scheduler>()
    ensures { EveryViewIsBlind S.Scheduler.meaning }
{}

// A script that passes inspection gets the answers that it would get with every level open.
pub fn transparency_stands<S: Scheduler>()
    ensures { EveryTypedRunIsUnaltered S.Scheduler.meaning }
{}

// Frames and trees go together: where each thread begins, how each turn moves its place, that a place has one code, that threads stay valid.
pub fn places_agree()
    ensures { PlacesAgree }
{}

// One walk over a script's frames tells whether what memory says of a thread fits: it does exactly if a thread of the model stands there, and then just one.
pub fn places_fit()
    ensures { PlacesFit }
{}

// Under two levels every turn is a transition of the published automaton, whose state is read off the machine's, but for the departures.
pub fn follows_the_automaton()
    ensures { Follows }
{}

// The automaton runs beside the machine from its own start state, and the machine gives its verdicts, but for the departures.
pub fn gives_its_verdicts()
    ensures { GivesItsVerdicts }
{}

// Where the two differ: closed ifs that take no fixed time and that the automaton never stops, and the machine bars.
pub fn bars_more_than_it_stops()
    ensures { Differs }
{}

// What calls lead to, whatever scheduler gives the turns, is what turns of ready threads, rests and feeds lead to.
pub fn calls_reach<S: Scheduler>()
    ensures { CallsReach S.Scheduler.meaning }
{}

// The published example of the automaton's states, step by step, as the automaton here gives it.
pub fn gives_table_one()
    ensures { AsShown }
{}

// Open and closed are a kind of levels.
pub fn two_levels_are_lawful()
    ensures { Lawful two_point }
{}

// The automaton never reads how many ⊥ a word has.
pub fn bottoms_are_not_read()
    ensures { BottomsAreNotRead }
{}

// The worked examples: a quotient toward zero, a divisor of nought, two durations, a mark, a put that is left out, a join and a flow.
pub fn examples_hold()
    ensures { Examples }
{}

// Three shortcuts, and a scheduler that does not keep its law, each leak on a small script; the machine itself does not.
pub fn shortcuts_leak()
    ensures { ShortcutsLeak }
{}

// A whole run under round robin, call by call, with its answers.
pub fn runs_as_listed()
    ensures { RunsAsListed }
{}
