// A fault of a lower layer, as the reader's.
ghost use Rattle.std.specs.Prelude.{◌≡◌};
ghost use Rattle.file.specs.Faults.{told_fault};

use crate::fault::{Fault, Question, QuestionFault};

impl<Q: Question> From<QuestionFault<Q>> for Fault {
    ghost from_gives = { λ f r. r ≡ told_fault Q.LAYER Q.number f };

    fn from(f: QuestionFault<Q>) -> Fault {
        Fault {
            layer: Q::LAYER,
            number: f.question.number(),
            strip: f.strip,
            place: f.place,
        }
    }
}
