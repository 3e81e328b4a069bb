// A question asked of each of some places: the first where the answer is no.
ghost use Rattle.std.specs.Prelude.{◌≡◌, ℕ, ◌<◌, Bool};
ghost use Rattle.file.specs.Places.{each, at, answered};
ghost use Rattle.file.specs.Faults.{fault_at};

use crate::fault::QuestionFault;

// The first of the places below n where the answer is no.
pub fn first_no<F: Fn(u16) -> bool>(n: u16, good: F) -> Option<u16>
    requires { (k : ℕ) → k < n → F.pre good k }
    ensures { (yes : ℕ → Bool) → ((k : ℕ) (b : Bool) → k < n → F.post good k b → b ≡ yes k) → result ≡ each n yes }
{
    for k in 0..n {
        if !good(k) {
            return Some(k);
        }
    }
    None
}

// A question of this strip, asked of the places below n.
pub fn ask_each<Q: Copy, F: Fn(u16) -> bool>(
    question: Q,
    strip: u16,
    n: u16,
    good: F,
) -> Result<(), QuestionFault<Q>>
    requires { (k : ℕ) → k < n → F.pre good k }
    ensures { (yes : ℕ → Bool) → ((k : ℕ) (b : Bool) → k < n → F.post good k b → b ≡ yes k) → result ≡ answered (at (fault_at question strip) (each n yes)) tt }
{
    match first_no(n, good) {
        None => Ok(()),
        Some(place) => Err(QuestionFault::new(question, strip, place)),
    }
}
