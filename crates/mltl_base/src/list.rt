//! Lists that grow at their end.

ghost use Rattle.std.specs.Prelude.{◌≡◌, ℕ, ◌==◌, ◌<◌, ◌≤◌, ◌+◌, ◌*◌, ◌^◌, [], ◌∷◌, ◌++◌, length, slice_get, slice_set, vec_capacity, vec_len, Some, OnOk, OnErr, IfErr, IfOk};
ghost use Rattle.mltl_base.specs.Room.{room, room_by};

use std::alloc::{AllocError, AllocFailed, Global};
use std::marker::Model;
use std::mem;

/// The most members of a list.
pub const MAX_MEMBERS: usize = 1_152_921_504_606_846_976;

/// A list of members of one type, which contracts see as that list. Its block has room for as many
/// members as `room` gives for its length, however the list was built.
#[derive(Drop)]
pub struct List<T> {
    items: Vec<T>,
}

impl<T> Model for List<T> {
    ghost use Rattle.std.specs.Prelude.{List as Members, ◌≡◌, vec_capacity, vec_len};
    ghost use Rattle.mltl_base.specs.Room.{room};

    ghost Value = { Members T };

    ghost view = { λ list. list.items.items };

    ghost invariant = { λ list. vec_capacity list.items ≡ room (vec_len list.items) };
}

/// Takes the members of a list, in its memory.
impl<T> From<List<T>> for Vec<T> {
    ghost from_gives = { λ list items. items.items ≡ list };

    fn from(list: List<T>) -> Vec<T> {
        list.items
    }
}

/// Returns the room of a list of `n` members: `n`, or at most an eighth more.
#[tactic(auto, using(crate::proofs::Rooms::enough, crate::proofs::Rooms::close))]
pub fn room_of(n: usize) -> usize
    requires few { n ≤ MAX_MEMBERS }
    ensures room { result ≡ room n }
    ensures enough { n ≤ result }
    ensures close { 8 * result ≤ 9 * n }
{
    room_by(60, n)
}

#[tactic(auto, unfolding(crate::specs::Room::room_by), using(crate::proofs::Rooms::close))]
fn room_by(halvings: u32, n: usize) -> usize
    requires few { n ≤ MAX_MEMBERS }
    ensures { result ≡ room_by halvings n }
{
    if halvings == 0 || n < 16 {
        return n;
    }
    2 * room_by(halvings - 1, n.div_ceil(2))
}

/// Reserves room for one more item in the vector of a list.
#[tactic(auto, using(crate::proofs::Rooms::enough, crate::proofs::Rooms::stays))]
fn make_room<T>(items: &mut Vec<T>) -> Result<(), AllocError>
    requires fit { vec_capacity items.old ≡ room (vec_len items.old) }
    ensures items { items.new.items ≡ items.old.items }
    ensures len { vec_len items.new ≡ vec_len items.old }
    ensures more { OnOk result (vec_len items.new < vec_capacity items.new) }
    ensures fit { OnOk result (vec_capacity items.new ≡ room (vec_len items.old + 1)) }
    ensures kept { OnErr result (vec_capacity items.new ≡ vec_capacity items.old) }
{
    let len = items.len();
    if len < items.capacity() {
        return Ok(());
    }
    if len >= MAX_MEMBERS {
        return Err(AllocError);
    }
    items.reserve_exact(room_of(len + 1) - len)
}

impl<T> List<T> {
    /// Creates an empty list. Does not allocate.
    #[tactic(auto, using(crate::proofs::Rooms::none))]
    pub fn new(alloc: Global) -> Self
        ensures { result ≡ [] }
    {
        List {
            items: Vec::new(alloc),
        }
    }

    /// Returns an empty vector with the room of a list of `n` members, for `of` once it has them.
    pub fn room_for(alloc: Global, n: usize) -> Result<Vec<T>, AllocError>
        ensures items { IfOk result (λ items. items.items ≡ []) }
        ensures len { IfOk result (λ items. vec_len items ≡ 0) }
        ensures room { IfOk result (λ items. vec_capacity items ≡ room n) }
        ensures enough { IfOk result (λ items. n ≤ vec_capacity items) }
    {
        if n > MAX_MEMBERS {
            return Err(AllocError);
        }
        Vec::with_capacity(alloc, room_of(n))
    }

    /// Makes a list of a vector that has the room of a list of its length, in its memory.
    pub fn of(items: Vec<T>) -> Self
        requires { vec_capacity items ≡ room (vec_len items) }
        ensures { result ≡ items.items }
    {
        List { items }
    }

    /// Appends an item. Returns the item if memory runs out.
    pub fn push(&mut self, item: T) -> Result<(), AllocFailed<T>>
        ensures pushed { OnOk result (self.new ≡ self.old ++ item ∷ []) }
        ensures kept { OnErr result (self.new ≡ self.old) }
        ensures handed_back { IfErr result (λ refused. refused.value ≡ item) }
    {
        if make_room(&mut self.items).is_err() {
            return Err(AllocFailed { value: item });
        }
        self.items.push_reserved(item);
        Ok(())
    }

    /// Returns the number of members.
    pub fn len(&self) -> usize
        ensures { result ≡ length self.now }
    {
        self.items.len()
    }

    /// Returns true if the list has no member.
    pub fn is_empty(&self) -> bool
        ensures { result ≡ (length self.now == 0) }
    {
        self.items.is_empty()
    }

    /// Returns member `i`, counted from 0.
    pub fn get(&self, i: usize) -> &T
        requires { i < length self.now }
        ensures { slice_get self.now i ≡ Some result.now }
    {
        &self.items[i]
    }

    /// Returns all members in order.
    pub fn as_slice(&self) -> &[T]
        ensures { result.now ≡ self.now }
    {
        self.items.as_slice()
    }

    /// Replaces member `i`, counted from 0, and returns the old one.
    pub fn put(&mut self, i: usize, item: T) -> T
        requires { i < length self.old }
        ensures replaced { self.new ≡ slice_set self.old i item }
        ensures handed_back { slice_get self.old i ≡ Some result }
    {
        mem::replace(&mut self.items[i], item)
    }
}
