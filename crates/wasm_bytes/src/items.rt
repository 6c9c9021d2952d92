ghost use Rattle.std.specs.Prelude.{◌≡◌, [], ◌∷◌, ◌++◌, ◌<◌, ◌≤◌, length, take, drop, slice_get, ◌↔◌, IsSome, IsNone, IfSome, IfOk, IfErr, OnOk, OnErr};
ghost use Rattle.std.specs.Borrow.{sem};
ghost use Rattle.std.specs.Option.{option_copied};
ghost use Rattle.wasm_bytes.specs.Lending.{LendsItem, option_now};

use crate::name::NoMemory;
use std::alloc::Global;
use std::marker::Model;

/// A list over a `Vec`. Contracts see it as the list of its items, so two trees with equal items
/// are equal.
#[derive(Drop)]
pub struct Items<T> {
    items: Vec<T>,
}

impl<T> Model for Items<T> {
    ghost use Rattle.std.specs.Prelude.{List};
    ghost use Rattle.std.specs.Coded.{coded_list};

    ghost Value = { List T };

    ghost coded = { coded_list T.code };

    ghost view = { λ it. it.items.items };
}

impl<T> Items<T> {
    /// Returns an empty list. The call allocates nothing.
    pub fn new(alloc: Global) -> Items<T>
        ensures { result ≡ [] }
    {
        Items {
            items: Vec::new(alloc),
        }
    }

    /// Appends the item. If memory runs out, the error is the item, and the list is unchanged.
    pub fn push(&mut self, item: T) -> Result<(), T>
        ensures ok { OnOk result (self.new ≡ self.old ++ item ∷ []) }
        ensures err { IfErr result (λ back. (back ≡ item) × (self.new ≡ self.old)) }
    {
        match self.items.push(item) {
            Ok(()) => Ok(()),
            Err(failed) => Err(failed.value),
        }
    }

    /// Returns the number of items.
    pub fn len(&self) -> usize
        ensures { result ≡ length self.now }
    {
        self.items.len()
    }

    /// Returns the item at position `at`, or `None` exactly if `at` is out of bounds.
    pub fn get(&self, at: usize) -> Option<&T>
        ensures value { option_copied result ≡ slice_get self.now at }
        ensures some { IsSome result ↔ (at < length self.now) }
    {
        self.items.get(at)
    }

    /// Lends the item at position `at` for writing, or returns `None` exactly if `at` is out of
    /// bounds. The other items are unchanged.
    pub fn get_mut(&mut self, at: usize) -> Option<&mut T>
        ensures* writes_back { sem 𝓛 (LendsItem T.row self.entry at result) }
        ensures value { option_now result ≡ slice_get self.old at }
        ensures some { IsSome result ↔ (at < length self.old) }
    {
        self.items.get_mut(at)
    }

    /// Returns the items as a slice.
    pub fn as_slice(&self) -> &[T]
        ensures { result.now ≡ self.now }
    {
        self.items.as_slice()
    }

    /// Takes the last item out. The result is `None` exactly if the list is empty. The call
    /// allocates nothing.
    pub fn pop(&mut self) -> Option<T>
        ensures some { IfSome result (λ item. self.old ≡ self.new ++ item ∷ []) }
        ensures none { IsNone result ↔ (self.old ≡ []) }
        ensures empty { IsNone result → self.new ≡ [] }
    {
        self.items.pop()
    }

    /// Moves all items of `other` behind those of this list, in order, and leaves `other` empty. If
    /// memory runs out, both lists are unchanged.
    pub fn append(&mut self, other: &mut Items<T>) -> Result<(), NoMemory>
        ensures ok { OnOk result (self.new ≡ self.old ++ other.old) }
        ensures empty { OnOk result (other.new ≡ []) }
        ensures err { OnErr result ((self.new ≡ self.old) × (other.new ≡ other.old)) }
    {
        match self.items.append(&mut other.items) {
            Ok(()) => Ok(()),
            Err(_) => Err(NoMemory),
        }
    }

    /// Takes off the items from position `at` on and returns them as a list, which takes no more
    /// memory than they need. If memory runs out, `self` is unchanged.
    pub fn split_off(&mut self, at: usize) -> Result<Items<T>, NoMemory>
        requires { at ≤ length self.old }
        ensures front { OnOk result (self.new ≡ take at self.old) }
        ensures back { IfOk result (λ tail. tail ≡ drop at self.old) }
        ensures err { OnErr result (self.new ≡ self.old) }
    {
        match self.items.split_off(at) {
            Ok(items) => Ok(Items { items }),
            Err(_) => Err(NoMemory),
        }
    }
}

impl<T: Drop> Items<T> {
    /// Appends the item. If memory runs out, the item is dropped, and the list is unchanged.
    #[inline(always)]
    pub fn keep(&mut self, item: T) -> Result<(), NoMemory>
        ensures ok { OnOk result (self.new ≡ self.old ++ item ∷ []) }
        ensures err { OnErr result (self.new ≡ self.old) }
    {
        match self.items.push(item) {
            Ok(()) => Ok(()),
            Err(_) => Err(NoMemory),
        }
    }
}

impl<T: Copy> Items<T> {
    /// Returns a list of the same items, or `NoMemory`.
    pub fn from_slice(alloc: Global, items: &[T]) -> Result<Items<T>, NoMemory>
        ensures { IfOk result (λ it. it ≡ items.now) }
    {
        match Vec::from_slice(alloc, items) {
            Ok(items) => Ok(Items { items }),
            Err(_) => Err(NoMemory),
        }
    }
}
