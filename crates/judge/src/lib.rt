// A file judged where it stands: the first question that is answered no, with its strip and its place.
// Working buffers are lent, of any length and content. Short ones are refused and left alone; others come back zero over the lengths that the questions need, whatever the answer.
#![tactic(auto)]

ghost use Rattle.std.specs.Prelude.{◌≡◌, length, replicate, pos};
ghost use Rattle.turning.specs.Limits.{max_edge, marks_for, line_for};
ghost use Rattle.search.specs.Buffers.{enough, given_back};
ghost use Rattle.file.specs.Places.{answered};
ghost use Rattle.file.specs.Verdict.{shape_verdict};
ghost use Rattle.judge.specs.Judging.{verdict_by};

use file::fault::{Fault, QuestionFault};
use file::questions::CallQuestion;
use file::whole::ask_file;
use seam_questions::asked::ask_seams;
use search::marks::{Lent, Line, Marks};
use strip_questions::asked::ask_strips;
use turning::limits::{LINE_NAMES, MARK_BYTES};

fn ask(bytes: &[u8], marks: &mut Marks, line: &mut Line) -> Result<(), Fault>
    ensures { result ≡ answered (shape_verdict bytes.now) tt }
{
    let file = ask_file(bytes)?;
    let judged = ask_strips(file, marks)?;
    ask_seams(judged, marks, line)?;
    Ok(())
}

// The same, over buffers of the right lengths, which the guards clear on every way out.
fn judge_within(bytes: &[u8], marks: &mut Marks, line: &mut Line) -> Result<(), Fault>
    ensures answer { result ≡ answered (shape_verdict bytes.now) tt }
    ensures zero { marks.new ≡ replicate (length marks.old) 0 }
    ensures empty { line.new ≡ replicate (length line.old) (pos 0) }
{
    let lent = Lent { at: marks };
    let waiting = Lent { at: line };
    ask(bytes, lent.at, waiting.at)
}

// Whether the file tells line work in strips: the first fault, or none.
pub fn judge(bytes: &[u8], marks: &mut [u8], line: &mut [i16]) -> Result<(), Fault>
    ensures answer { result ≡ answered (verdict_by (enough max_edge marks.old line.old) bytes.now) tt }
    ensures zero { marks.new ≡ given_back (enough max_edge marks.old line.old) (marks_for max_edge) 0 marks.old }
    ensures empty { line.new ≡ given_back (enough max_edge marks.old line.old) (line_for max_edge) (pos 0) line.old }
{
    let short = Fault::from(QuestionFault::new(CallQuestion::Buffers, 0, 0));
    let Some(marks) = marks.first_chunk_mut::<MARK_BYTES>() else {
        return Err(short);
    };
    let Some(line) = line.first_chunk_mut::<LINE_NAMES>() else {
        return Err(short);
    };
    judge_within(bytes, marks, line)
}

#[cfg(test)]
mod tests {
    use crate::judge;
    use file::fault::{Fault, Layer};
    use turning::limits::{LINE_NAMES, MARK_BYTES};

    fn judged(bytes: &[u8]) -> Result<(), Fault> {
        let mut marks = [0u8; MARK_BYTES];
        let mut line = [0i16; LINE_NAMES];
        judge(bytes, &mut marks, &mut line)
    }

    fn no(layer: Layer, number: u8, strip: u16, place: u16) -> Result<(), Fault> {
        Err(Fault {
            layer,
            number,
            strip,
            place,
        })
    }

    // An edge from (-5, 0) to (5, 0), with the border 0.
    #[test]
    fn one_edge(rt: HostRuntime) {
        let file =
            b"\x02\x00\x01\x00\x02\x00\x01\x00\x02\x00\x00\x00\x00\x00\x01\x00\xff\xff\x00\x00\xff\xff\xfb\xff\xff\xff\x00\x00\x00\x00\x01\x00\xff\xff\xff\xff\x01\x00\x05\x00\x00\x00\x00\x00\x00\x00";
        assert_eq!(rt; judged(file), Ok(()));
    }

    #[test]
    fn short_buffers(rt: HostRuntime) {
        let mut marks = [0u8; MARK_BYTES];
        let mut line = [0i16; 1];
        assert_eq!(rt;
            judge(b"", &mut marks, &mut line),
            no(Layer::Call, 20, 0, 0)
        );
    }

    #[test]
    fn no_bytes(rt: HostRuntime) {
        assert_eq!(rt; judged(b""), no(Layer::File, 1, 0, 0));
    }

    #[test]
    fn sizes_missing(rt: HostRuntime) {
        assert_eq!(rt; judged(b"\x01\x00\x00\x00"), no(Layer::File, 2, 0, 0));
    }

    #[test]
    fn more_vertices_than_slots(rt: HostRuntime) {
        assert_eq!(rt;
            judged(b"\x02\x00\x00\x00\x00\x00\x01\x00\x00\x00"),
            no(Layer::File, 3, 2, 0)
        );
    }

    #[test]
    fn one_byte_too_many(rt: HostRuntime) {
        assert_eq!(rt;
            judged(b"\x01\x00\x00\x00\x00\x00\x09"),
            no(Layer::File, 4, 0, 0)
        );
    }

    #[test]
    fn level_borders(rt: HostRuntime) {
        let file =
            b"\x03\x00\x00\x00\x00\x00\x00\x00\x00\x00\x00\x00\x00\x00\x05\x00\x00\x00\x05\x00\x00\x00";
        assert_eq!(rt; judged(file), no(Layer::File, 5, 0, 1));
    }

    #[test]
    fn name_zero(rt: HostRuntime) {
        assert_eq!(rt;
            judged(b"\x01\x00\x00\x00\x01\x00\x00\x00\xff\xff"),
            no(Layer::Strip, 6, 1, 0)
        );
    }

    #[test]
    fn lone_name(rt: HostRuntime) {
        assert_eq!(rt;
            judged(b"\x01\x00\x00\x00\x01\x00\x07\x00\xff\xff"),
            no(Layer::Strip, 7, 1, 0)
        );
    }

    #[test]
    fn follower_beyond(rt: HostRuntime) {
        assert_eq!(rt;
            judged(b"\x01\x00\x00\x00\x02\x00\x01\x00\xff\xff\xff\xff\x02\x00"),
            no(Layer::Strip, 8, 1, 1)
        );
    }

    #[test]
    fn follower_external(rt: HostRuntime) {
        assert_eq!(rt;
            judged(b"\x01\x00\x00\x00\x02\x00\x01\x00\xff\xff\x01\x00\xff\xff"),
            no(Layer::Strip, 9, 1, 0)
        );
    }

    #[test]
    fn one_round_no_vertex(rt: HostRuntime) {
        assert_eq!(rt;
            judged(b"\x01\x00\x00\x00\x02\x00\x01\x00\xff\xff\x00\x00\xff\xff"),
            no(Layer::Strip, 10, 1, 0)
        );
    }

    #[test]
    fn point_off_the_sheet(rt: HostRuntime) {
        let file =
            b"\x01\x00\x01\x00\x02\x00\x01\x00\xff\xff\x00\x00\xff\xff\x41\x42\x0f\x00\x00\x00\x00\x00";
        assert_eq!(rt; judged(file), no(Layer::Strip, 11, 1, 0));
    }

    #[test]
    fn points_alike(rt: HostRuntime) {
        let file =
            b"\x01\x00\x02\x00\x02\x00\x01\x00\xff\xff\x00\x00\x01\x00\x04\x00\x00\x00\x04\x00\x00\x00\x00\x00\x00\x00\x00\x00\x00\x00";
        assert_eq!(rt; judged(file), no(Layer::Strip, 12, 1, 1));
    }

    // The western half of the edge.
    #[test]
    fn half_edge(rt: HostRuntime) {
        let file =
            b"\x01\x00\x01\x00\x02\x00\x01\x00\xff\xff\x00\x00\xff\xff\xfb\xff\xff\xff\x00\x00\x00\x00";
        assert_eq!(rt; judged(file), no(Layer::Seam, 13, 1, 1));
    }

    // Both ends in strip 1, and the edge goes on into strip 2.
    #[test]
    fn home_name_beyond(rt: HostRuntime) {
        let file =
            b"\x02\x00\x02\x00\x02\x00\x01\x00\x02\x00\x00\x00\x00\x00\x01\x00\xff\xff\x00\x00\x01\x00\xfb\xff\xff\xff\xfc\xff\xff\xff\x00\x00\x00\x00\x00\x00\x00\x00\x01\x00\xff\xff\xff\xff\x01\x00\x05\x00\x00\x00\x00\x00\x00\x00";
        assert_eq!(rt; judged(file), no(Layer::Seam, 14, 1, 1));
    }

    // The same edge in strips 1 and 3.
    #[test]
    fn two_homes(rt: HostRuntime) {
        let file =
            b"\x03\x00\x02\x00\x02\x00\x00\x00\x00\x00\x02\x00\x02\x00\x00\x00\x00\x00\x09\x00\x00\x00\x01\x00\xff\xff\x00\x00\x01\x00\xfb\xff\xff\xff\xfc\xff\xff\xff\x00\x00\x00\x00\x00\x00\x00\x00\x01\x00\xff\xff\x00\x00\x01\x00\x09\x00\x00\x00\x0a\x00\x00\x00\x00\x00\x00\x00\x00\x00\x00\x00";
        assert_eq!(rt; judged(file), no(Layer::Seam, 15, 3, 0));
    }

    // +1 starts east of -1.
    #[test]
    fn turned_round(rt: HostRuntime) {
        let file =
            b"\x01\x00\x02\x00\x02\x00\xff\xff\x01\x00\x00\x00\x01\x00\xfb\xff\xff\xff\x05\x00\x00\x00\x00\x00\x00\x00\x00\x00\x00\x00";
        assert_eq!(rt; judged(file), no(Layer::Seam, 16, 1, 1));
    }

    // The working buffers come back zero after a fault too.
    #[test]
    fn buffers_given_back(rt: HostRuntime) {
        let mut marks = [7u8; MARK_BYTES];
        let mut line = [7i16; LINE_NAMES];
        assert_eq!(rt; judge(b"", &mut marks, &mut line), no(Layer::File, 1, 0, 0));
        assert_eq!(rt; marks[MARK_BYTES - 1], 0);
        assert_eq!(rt; line[LINE_NAMES - 1], 0);
    }
}
