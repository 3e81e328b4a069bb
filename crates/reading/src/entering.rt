// The entries of all names, filled in one pass over the slots of an accepted file.
ghost use Rattle.std.specs.Prelude.{◌≡◌, suc, ◌+◌, ◌<◌, length, replicate, None};
ghost use Rattle.turning.specs.Limits.{max_edge, marks_for};
ghost use Rattle.laws.specs.Keeps.{Sound};
ghost use Rattle.file.specs.Layout.{strip};
ghost use Rattle.file.specs.Verdict.{told_lines};
ghost use Rattle.file.specs.Views.{told};
ghost use Rattle.seam_questions.specs.Vertices.{Sound as SoundStrip, Numbered};
ghost use Rattle.told.specs.Tells.{borders_in, TellsStrip, Tells};
ghost use Rattle.reading.specs.Entries.{lines_by};
ghost use Rattle.reading.specs.Entering.{Put, Entered};

use crate::entry::{Entries, Entry};
use file::parts::JudgedFile;
use file::view::Strip;
use seam_questions::vertices::{line_in, number_vertices, vertex_at};
use search::marks::Line;
use strip_questions::place::place_in;

// What slot i tells, if it is home: the entry of the name that follows. The line has the vertices of the strip.
fn enter_slot(s: Strip<'_>, i: u16, line: &Line, entries: &mut Entries)
    requires sound { SoundStrip (told s) }
    requires slot { i < s.slots }
    requires line { Numbered (told s) line.now }
    ensures { Put (told s.entry) i entries.old entries.new }
{
    if !s.is_home(i) {
        return;
    }
    let Some(vertex) = vertex_at(line, line_in(s, i)) else {
        return;
    };
    let after = s.follower(i);
    let follower = s.name(s.follower(after));
    let predecessor = s.name(i);
    let point = s.point(vertex);
    let place = place_in(s, after);
    entries[place] = Some(Entry {
        follower,
        predecessor,
        point,
    });
}

// What strip j tells.
fn enter_strip(bytes: &[u8], j: u16, s: Strip<'_>, line: &Line, entries: &mut Entries)
    requires judged { SoundStrip (told s) }
    requires strip { told s ≡ strip bytes.now j }
    requires tells { TellsStrip (borders_in bytes.now) (told_lines bytes.now) (suc j) (strip bytes.now j) }
    requires sound { Sound max_edge (told_lines bytes.now) }
    requires line { Numbered (told s) line.now }
    requires entered { Entered bytes.now j 0 entries.old }
    ensures { Entered bytes.now (j + 1) 0 entries.new }
{
    for i in 0..s.slots {
        enter_slot(s, i, line, entries);
    }
}

// Fills in what the file tells of every name. The line is used up.
pub(crate) fn enter(judged: JudgedFile<'_>, line: &mut Line, entries: &mut Entries)
    requires tells { Tells (borders_in judged.file.bytes.now) (told_lines judged.file.bytes.now) judged.file.bytes.now }
    requires sound { Sound max_edge (told_lines judged.file.bytes.now) }
    requires empty { entries.old ≡ replicate (marks_for max_edge) None }
    ensures { lines_by entries.new ≡ told_lines judged.entry.file.bytes.now }
{
    let file = judged.file;
    for j in 0..file.count {
        let s = file.strip(j);
        number_vertices(s, line);
        enter_strip(file.bytes, j, s, line, entries);
    }
}
