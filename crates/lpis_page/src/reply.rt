//! How an answer is handed over.

ghost use Rattle.std.specs.Prelude.{◌≡◌, ◌<◌, IsFalse, IsTrue, length, take};
ghost use Rattle.lpis_run.specs.Status.{failed};

use lpis_run::{Answer, FAILED};

/// What a call hands over beside the text.
#[repr(C)]
pub struct Reply {
    /// How many bytes the text has.
    pub length: usize,
    /// The status that the program would end with.
    pub status: u8,
}

impl Reply {
    /// Says that there is no answer. The result is false.
    pub fn none(&mut self) -> bool
        ensures length { self.new.length ≡ 0 }
        ensures status { self.new.status ≡ failed }
        ensures answer { IsFalse result }
    {
        self.length = 0;
        self.status = FAILED;
        false
    }

    /// Says how long the text of an answer is, for which there is no room. The result is false.
    pub fn longer(&mut self, answer: &Answer) -> bool
        ensures length { self.new.length ≡ length answer.now.text.items }
        ensures status { self.new.status ≡ failed }
        ensures answer { IsFalse result }
    {
        self.length = answer.text.len();
        self.status = FAILED;
        false
    }

    /// Hands over an answer. False is a room too small, which is left as it was.
    pub fn hand_over(&mut self, answer: &Answer, room: &mut [u8]) -> bool
        ensures length { self.new.length ≡ length answer.now.text.items }
        ensures status { IsTrue result → self.new.status ≡ answer.now.status }
        ensures unanswered { IsFalse result → self.new.status ≡ failed }
        ensures text { IsTrue result → take self.new.length room.new ≡ answer.now.text.items }
        ensures longer { IsFalse result → length room.old < self.new.length }
        ensures kept { IsFalse result → room.new ≡ room.old }
    {
        if !put(answer.text.as_slice(), room) {
            return self.longer(answer);
        }
        self.length = answer.text.len();
        self.status = answer.status;
        true
    }
}

/// Puts a text at the start of a room. False is a room too small, which is left as it was; so is
/// one that gets no text.
pub fn put(text: &[u8], room: &mut [u8]) -> bool
    ensures text { IsTrue result → take (length text.now) room.new ≡ text.now }
    ensures longer { IsFalse result → length room.old < length text.now }
    ensures kept { IsFalse result → room.new ≡ room.old }
    ensures nothing { length text.now ≡ 0 → room.new ≡ room.old }
{
    if text.len() > room.len() {
        return false;
    }
    if text.is_empty() {
        return true;
    }
    room[..text.len()].copy_from_slice(text);
    true
}
