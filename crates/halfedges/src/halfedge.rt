// The record of the lent memory, and the memory as it is lent.
use turning::limits::SLOTS;
use turning::refusal::Refusal;

// One record of the lent memory: a halfedge in one strip, or nothing where the name is 0. Its links are names, 0 for none.
// Beside it stand three entries of the index that all the records make up together.
#[derive(Clone, Copy)]
pub struct Halfedge {
    pub strip: u16,
    pub name: i16,
    pub follower: i16,
    pub predecessor: i16,
    pub x: i32,
    pub y: i32,
    pub index: [u16; 3],
}

// A record that holds nothing.
pub const FREE: Halfedge = Halfedge {
    strip: 0,
    name: 0,
    follower: 0,
    predecessor: 0,
    x: 0,
    y: 0,
    index: [0; 3],
};

// The records as they are lent. A memory that is too short holds nothing, and is left as it is.
// No ghost field says what holds of them: it holds between changes alone, and of a memory that is long enough, which the stores say. That they are enough is not always so either, and the functions below are given a plain slice: so each that writes asks for it.
// A struct for the inside of a change, made of a part of the loan, was tried: a call may set its field to other records, so its maker learns nothing of these (the goal `returns`).
#[derive(Drop)]
pub struct Rows<'a> {
    pub at: &'a mut [Halfedge],
}

impl<'a> Rows<'a> {
    ghost use Rattle.std.specs.Prelude.{◌≡◌, ◌<◌, ◌≤◌, [], ◌∷◌, length, nat_le};
    ghost use Rattle.turning.specs.Limits.{slots};
    ghost use Rattle.turning.specs.Refusals.{asked};
    ghost use Rattle.turning.specs.declared.refusal.Refusal.TheVariants.{ShortMemory};
    ghost use Rattle.halfedges.specs.Rows.{Blank};

    // The memory with every record freed, whatever it held.
    pub fn new(memory: &'a mut [Halfedge]) -> Rows<'a>
        ensures freed { slots ≤ length memory.old → Blank result.at.now }
        ensures length { length result.at.now ≡ length memory.old }
        ensures left { length memory.old < slots → result.at.now ≡ memory.old }
    {
        let mut rows = Rows { at: memory };
        rows.clear();
        rows
    }

    // Frees every record.
    pub fn clear(&mut self)
        ensures freed { slots ≤ length self.old.at.now → Blank self.new.at.now }
        ensures length { length self.new.at.now ≡ length self.old.at.now }
        ensures left { length self.old.at.now < slots → self.new.at.now ≡ self.old.at.now }
    {
        if self.is_long() {
            self.at.fill(FREE);
        }
    }

    // Are there enough records?
    pub fn is_long(&self) -> bool
        ensures { result ≡ nat_le slots (length self.now.at.now) }
    {
        self.at.len() >= SLOTS
    }

    // The same, with the refusal where there are not.
    pub fn ready(&self) -> Result<(), Refusal>
        ensures { result ≡ asked ((nat_le slots (length self.now.at.now), ShortMemory) ∷ []) tt }
    {
        if !self.is_long() {
            return Err(Refusal::ShortMemory);
        }
        Ok(())
    }
}
