// The pieces, counted: each is searched once, with a line of the names whose steps are still to be taken.
ghost use Rattle.std.specs.Prelude.{◌≡◌, ◌+◌, ◌<◌, ◌≤◌, true, false, length, replicate, pos, slice_set};
ghost use Rattle.turning.specs.Limits.{max_edge, line_for};
ghost use Rattle.turning.specs.Turn.{Turn};
ghost use Rattle.turning.specs.Counts.{pieces, same_piece};
ghost use Rattle.turning.proofs.Tests.{piece_fair};
ghost use Rattle.search.specs.Marks.{Within, marked, Clean, Closed, Noted, Spreads, Taken, piece_steps};

use crate::classes::{Search, count_classes};
use crate::marks::{Lent, Line, Marks, is_marked, mark};
use turning::Turning;

// The first `end` names of the line; those before `at` have been taken.
#[derive(Drop)]
struct Queue<'a> {
    names: &'a mut Line,
    at: usize,
    end: usize,
}

impl Queue<'_> {
    // Puts x at the end.
    fn push(&mut self, x: i16)
        requires { self.old.end < line_for max_edge }
        ensures names { self.new.names.now ≡ slice_set self.old.names.now self.old.end x }
        ensures at { self.new.at ≡ self.old.at }
        ensures end { self.new.end ≡ self.old.end + 1 }
    {
        self.names[self.end] = x;
        self.end += 1;
    }

    // Takes the next name, if there is one.
    fn take(&mut self) -> Option<i16>
        requires { self.old.end ≤ line_for max_edge }
        ensures taken { Taken self.old.names.now self.old.at self.old.end result self.new.at }
        ensures names { self.new.names.now ≡ self.old.names.now }
        ensures end { self.new.end ≡ self.old.end }
    {
        if self.at >= self.end {
            return None;
        }
        let x = self.names[self.at];
        self.at += 1;
        Some(x)
    }
}

// Marks x and puts it into the queue, unless it is marked already.
fn note(x: i16, marks: &mut Marks, queue: &mut Queue)
    requires within { Within max_edge x }
    requires room { marked max_edge marks.old x ≡ false → queue.old.end < line_for max_edge }
    ensures noted { Noted max_edge x marks.old marks.new queue.old.names.now queue.new.names.now queue.old.end queue.new.end }
    ensures at { queue.new.at ≡ queue.old.at }
{
    if !is_marked(marks, x) {
        mark(marks, x);
        queue.push(x);
    }
}

// Marks all that the steps of a piece lead to from h.
fn mark_piece<T: Turning>(t: &T, h: i16, marks: &mut Marks, line: &mut Line)
    requires held { (T.Turning.turn t.now).held h ≡ true }
    requires unmarked { marked max_edge marks.old h ≡ false }
    requires closed { Closed max_edge (T.Turning.turn t.now) (piece_steps (T.Turning.turn t.now)) marks.old }
    ensures { Spreads max_edge (T.Turning.turn t.now) (piece_steps (T.Turning.turn t.now)) h marks.old marks.new }
{
    let mut queue = Queue {
        names: line,
        at: 0,
        end: 0,
    };
    note(h, marks, &mut queue);
    while let Some(x) = queue.take() {
        note(t.follower(x), marks, &mut queue);
        note(-x, marks, &mut queue);
    }
}

// A piece is searched with a line.
impl Search for Line {
    ghost steps = { piece_steps };

    ghost fair = { piece_fair max_edge };

    fn mark_class<T: Turning>(&mut self, t: &T, h: i16, marks: &mut Marks) {
        mark_piece(t, h, marks, self);
    }
}

// How many pieces there are.
pub fn count_pieces<T: Turning>(t: &T, marks: &mut Marks, line: &mut Line) -> u16
    ensures count { result ≡ pieces max_edge (T.Turning.turn t.now) }
    ensures zero { marks.new ≡ replicate (length marks.old) 0 }
    ensures empty { line.new ≡ replicate (length line.old) (pos 0) }
{
    marks.fill(0);
    let lent = Lent { at: marks };
    let waiting = Lent { at: line };
    count_classes(t, waiting.at, lent.at)
}

// Is k in the piece of h? The marks are lent clean, and come back with that piece marked.
pub fn is_joined<T: Turning>(t: &T, h: i16, k: i16, marks: &mut Marks, line: &mut Line) -> bool
    requires clean { Clean marks.old }
    requires start { (T.Turning.turn t.now).held h ≡ true }
    requires end { (T.Turning.turn t.now).held k ≡ true }
    ensures { result ≡ same_piece max_edge (T.Turning.turn t.now) h k }
{
    mark_piece(t, h, marks, line);
    is_marked(marks, k)
}
