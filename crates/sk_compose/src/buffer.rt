//! The items that wait to be merged, and what lies in a slot.
ghost use Rattle.std.specs.Prelude.{◌≡◌, ◌↔◌, ◌<◌, ◌≤◌, [], ◌∷◌, ◌++◌, length, IsTrue, IfOk};
ghost use Rattle.sk_compose.specs.Buffers.{IsBuffer};
ghost use Rattle.sk_model.specs.Width.{IsItem};
ghost use Rattle.sk_model.specs.Limits.{most_size};

use sk_model::OutOfMemory;
use std::alloc::Global;
use std::marker::Model;

/// Items that wait to be merged, at most as many as it has room for.
#[derive(Drop)]
pub struct Buffer {
    items: Vec<u64>,
    capacity: u32,
}

impl Model for Buffer {
    ghost use Rattle.std.specs.Prelude.{◌≤◌, vec_capacity};
    ghost use Rattle.sk_compose.specs.Buffers.{Contents, IsBuffer};

    ghost Value = { Contents };

    ghost view = { λ b. record { items = b.items.items; capacity = b.capacity } };

    ghost invariant = { λ b. IsBuffer (record { items = b.items.items; capacity = b.capacity })
        × (b.capacity ≤ vec_capacity b.items) };
}

impl Buffer {
    /// Room for b items, from 1 to 4,096. All its memory is taken here.
    pub fn new(alloc: Global, b: u32) -> Result<Buffer, OutOfMemory>
        requires least { 1 ≤ b }
        requires most { b ≤ most_size }
        ensures items { IfOk result (λ buffer. buffer.items ≡ []) }
        ensures capacity { IfOk result (λ buffer. buffer.capacity ≡ b) }
    {
        Ok(Buffer {
            items: Vec::with_capacity(alloc, b as usize)?,
            capacity: b,
        })
    }

    /// Puts an item to the end.
    pub fn push(&mut self, item: u64)
        requires room { length self.old.items < self.old.capacity }
        requires item { IsItem item }
        ensures items { self.new.items ≡ self.old.items ++ item ∷ [] }
        ensures capacity { self.new.capacity ≡ self.old.capacity }
    {
        self.items.push_reserved(item);
    }

    /// Takes all items out. The room stays.
    pub fn clear(&mut self)
        ensures items { self.new.items ≡ [] }
        ensures capacity { self.new.capacity ≡ self.old.capacity }
    {
        self.items.clear();
    }

    /// How many items there are.
    pub fn len(&self) -> u32
        ensures value { result ≡ length self.now.items }
        ensures whole { IsBuffer self.now }
    {
        self.items.len() as u32
    }

    /// Whether there is no room for one item more.
    pub fn is_full(&self) -> bool
        ensures value { IsTrue result ↔ (length self.now.items ≡ self.now.capacity) }
        ensures whole { IsBuffer self.now }
    {
        self.len() == self.capacity
    }

    /// The items, in order.
    pub fn items(&self) -> &[u64]
        ensures value { result.now ≡ self.now.items }
        ensures whole { IsBuffer self.now }
    {
        self.items.as_slice()
    }
}

/// What lies in a slot: a buffer, and what the last merge of a batch from there made known.
#[derive(Drop)]
pub struct Parcel<T: Drop> {
    pub buffer: Buffer,
    pub told: Option<T>,
}
