// What a question that is answered no tells: which question it is, the strip and the place. Strips count from 1; 0 is no strip.
ghost use Rattle.std.specs.Prelude.{◌≡◌, ℕ};
ghost use Rattle.file.specs.declared.fault.Layer.{Layer};

// In which layer a question is asked, with the number by which it goes over the boundary.
#[derive(Clone, Copy, PartialEq, Eq, Debug, Drop)]
pub enum Layer {
    // The whole file: questions 1 to 5.
    File = 1,
    // Each strip: questions 6 to 12.
    Strip = 2,
    // The seams between strips: questions 13 to 16.
    Seam = 3,
    // The line work as a whole: question 17.
    Flat = 4,
    // The call itself, what it is lent: questions 18 and 20.
    Call = 5,
}

// A fault as a reader tells it.
#[derive(Clone, Copy, PartialEq, Eq, Debug, Drop)]
pub struct Fault {
    pub layer: Layer,
    pub number: u8,
    pub strip: u16,
    pub place: u16,
}

// The questions of one layer, which readers know by their numbers.
pub trait Question: Copy {
    ghost LAYER: { Layer };

    ghost number: { Self → ℕ };

    const LAYER: Layer;

    // The number of the question.
    fn number(self) -> u8
        ensures { result ≡ number self };
}

// A question of one layer that is answered no.
#[derive(Clone, Copy, PartialEq, Eq, Debug, Drop)]
pub struct QuestionFault<Q> {
    pub question: Q,
    pub strip: u16,
    pub place: u16,
}

impl<Q> QuestionFault<Q> {
    ghost use Rattle.file.specs.Faults.{fault_at};

    // The fault of a question at a strip and a place.
    pub fn new(question: Q, strip: u16, place: u16) -> QuestionFault<Q>
        ensures { result ≡ fault_at question strip place }
    {
        QuestionFault {
            question,
            strip,
            place,
        }
    }
}
