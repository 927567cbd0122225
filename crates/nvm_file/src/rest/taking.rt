ghost use Rattle.std.specs.Prelude.{◌≡◌, ◌≤◌, IfOk, drop, length, take};
ghost use Rattle.nvm_file.specs.Inside.Rest.{EndsWith, left_of};

use super::Rest;
use nvm_record::{NoMemory, Payload};
use std::alloc::Global;

impl<'a> Rest<'a> {
    /// The whole file.
    #[tactic(auto, unfolding(crate::specs::Inside::Rest::left_of))]
    pub fn whole(file: &'a Payload) -> Rest<'a>
        ensures { left_of result ≡ file.now }
    {
        let left = file.as_slice();
        Rest {
            file,
            from: 0,
            left,
        }
    }

    /// How many bytes are left.
    #[tactic(auto, unfolding(crate::specs::Inside::Rest::left_of))]
    pub fn len(self) -> usize
        ensures { result ≡ length (left_of self.entry) }
    {
        self.left.len()
    }

    /// The bytes that are left.
    #[tactic(auto, unfolding(crate::specs::Inside::Rest::left_of))]
    pub fn as_slice(self) -> &'a [u8]
        ensures { result.now ≡ left_of self.entry }
    {
        self.left
    }

    /// The next `count` bytes.
    #[tactic(auto, unfolding(crate::specs::Inside::Rest::left_of))]
    pub fn front(self, count: usize) -> &'a [u8]
        requires { count ≤ length (left_of self) }
        ensures bytes { result.now ≡ take count (left_of self.entry) }
        ensures count { length result.now ≡ count }
    {
        &self.left[..count]
    }

    /// What is left behind the next `count` bytes.
    #[tactic(auto, unfolding(crate::specs::Inside::Rest::left_of))]
    pub fn after(self, count: usize) -> Rest<'a>
        requires { count ≤ length (left_of self) }
        ensures { left_of result ≡ drop count (left_of self.entry) }
    {
        let _length = self.file.len();
        Rest {
            file: self.file,
            from: self.from + count,
            left: &self.left[count..],
        }
    }

    /// The next `count` bytes, shared.
    #[tactic(auto, unfolding(crate::specs::Inside::Rest::left_of))]
    pub fn part(self, count: usize) -> Result<Payload, NoMemory>
        requires { count ≤ length (left_of self) }
        ensures { IfOk result (λ p. p ≡ take count (left_of self.entry)) }
    {
        let _length = self.file.len();
        self.file.part(self.from, self.from + count)
    }

    /// The whole file, shared, with a count of owners of its own. It takes one small block of memory.
    pub fn own_share(self, alloc: Global) -> Result<Payload, NoMemory>
        ensures { IfOk result (λ p. p ≡ self.entry.file.now) }
    {
        self.file.own_part(alloc, 0, self.file.len())
    }

    /// The same place, in another share of the file.
    #[tactic(auto, unfolding(crate::specs::Inside::Rest::left_of))]
    pub fn in_share<'b>(self, file: &'b Payload) -> Rest<'b>
        requires { file.now ≡ self.file.now }
        ensures { left_of result ≡ left_of self.entry }
    {
        let left = &file.as_slice()[self.from..];
        Rest {
            file,
            from: self.from,
            left,
        }
    }

    /// What is left of this file where `end` stands, which may be of another share: as many bytes as `end` has.
    pub fn up_to(self, end: Rest<'_>) -> Rest<'a>
        requires { EndsWith (left_of self) (left_of end) }
        ensures { left_of result ≡ left_of end.entry }
    {
        self.after(self.len() - end.len())
    }
}
