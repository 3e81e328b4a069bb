// Lists of edits over any store.
ghost use Rattle.std.specs.Prelude.{◌≡◌};
ghost use Rattle.turning.specs.Refusals.{Outcome};
ghost use Rattle.chart.specs.Stores.{Meaning};
ghost use Rattle.chart.specs.Bounds.{meaning};
ghost use Rattle.runs.specs.Chains.{Chain};
ghost use Rattle.runs.specs.Runs.{CallCarried, StepBy, FlatStepBy, FlatAt};

use chart::Store;
use chart::point::Point;
use edits;
use turning::refusal::Refusal;

// The two corners of a join.
#[derive(Clone, Copy)]
pub struct Corners {
    pub c: i16,
    pub d: i16,
}

// An edit with its arguments; a join has buffers of its own.
#[derive(Drop)]
pub enum Call {
    Start {
        edge: u16,
        p: Point,
        q: Point,
    },
    Sprout {
        edge: u16,
        corner: i16,
        p: Point,
    },
    Join {
        edge: u16,
        at: Corners,
        marks: Vec<u8>,
        line: Vec<i16>,
    },
    Split {
        edge: u16,
        east: u16,
        p: Point,
    },
    Remove {
        edge: u16,
    },
}

// What a call answered; none while it is still to come.
pub type Answer = Option<Result<(), Refusal>>;

// A call, and the place for its answer.
#[derive(Drop)]
pub struct Item<C> {
    pub call: C,
    pub answer: Answer,
}

// A call that a store of some kind carries out; each keeps flat line work flat.
pub trait Carry<S> {
    // What the store means.
    ghost means: { S → Meaning };

    // The call, from one meaning to another: its outcome, and the call as it stands after.
    ghost carried: { Meaning → Self → Outcome → Self → Meaning → Type 0 };

    fn carry(&mut self, store: &mut S) -> Result<(), Refusal>
        ensures { carried (means store.old) self.old result self.new (means store.new) };

    ghost keeps_flat: { (m : Meaning) (x : Self) (r : Outcome) (y : Self) (m' : Meaning) → carried m x r y m' → FlatAt m → FlatAt m' };
}

impl<S: Store> Carry<S> for Call {
    ghost means = { λ s. meaning S.Store s };

    ghost carried = { CallCarried };

    ghost keeps_flat = { λ m x r y m' c. c.flat };

    fn carry(&mut self, store: &mut S) -> Result<(), Refusal> {
        match *self {
            Call::Start { edge, p, q } => edits::start(store, edge, p, q),
            Call::Sprout { edge, corner, p } => edits::sprout(store, edge, corner, p),
            Call::Join {
                edge,
                at,
                ref mut marks,
                ref mut line,
            } => edits::join(
                store,
                edge,
                at.c,
                at.d,
                marks.as_mut_slice(),
                line.as_mut_slice(),
            ),
            Call::Split { edge, east, p } => edits::split(store, edge, east, p),
            Call::Remove { edge } => edits::remove(store, edge),
        }
    }
}

// Every call is carried out as defined; and from a flat start the line work is flat after every call.
pub fn run<S, C: Carry<S>>(store: &mut S, items: &mut [Item<C>])
    ensures run { Chain (StepBy C.carried) (C.means store.old) items.old items.new (C.means store.new) }
    ensures flat { FlatAt (C.means store.old) → Chain (FlatStepBy C.carried) (C.means store.old) items.old items.new (C.means store.new) }
{
    for item in items.iter_mut() {
        item.answer = Some(item.call.carry(store));
    }
}
