//! A text with a block of zeros and room for more after it.
ghost use Rattle.std.specs.Prelude.{◌≡◌, ◌↔◌, ◌+◌, ◌^◌, ◌<◌, ◌≤◌, ℕ, List, ◌++◌, length, take, drop, replicate, vec_len, vec_capacity, IfOk, OnOk, OnErr, IsErrOf};
ghost use Rattle.sk_model.specs.Causes.{HasCauseIn};
ghost use Rattle.sk_io.specs.Base.{LastRead};
ghost use Rattle.sk_lines.specs.Cutter.{IsRead};
ghost use Rattle.sk_lines.specs.Padded.{padded, with_more};

use crate::cutter::MOST_PIECE;
use crate::marks::BLOCK;
use sk_io::{BoundFault, Source, read_within};
use sk_model::OutOfMemory;
use std::alloc::Global;
use std::marker::Model;

/// A text and a block of zeros after it, so that each block of the text may be read.
#[derive(Drop)]
pub struct Padded {
    // Of the room as many bytes as were ever needed: memory is touched when it is, and what a read is to fill again needs
    // not be filled before.
    bytes: Vec<u8>,
    // Where the block of zeros ends.
    end: usize,
    // How many bytes there is room for, with the zeros.
    room: usize,
}

impl Model for Padded {
    ghost use Rattle.std.specs.Prelude.{◌≤◌, take, vec_len, vec_capacity};
    ghost use Rattle.sk_lines.specs.Padded.{PaddedState};

    ghost Value = { PaddedState };

    ghost view = { λ padded. record { items = take padded.end padded.bytes.items; room = padded.room } };

    ghost invariant = { λ padded. (padded.end ≤ vec_len padded.bytes) × (padded.room ≤ vec_capacity padded.bytes) };
}

impl Padded {
    /// No text, and room for one of `room` bytes.
    pub fn new(alloc: Global, room: usize) -> Result<Padded, OutOfMemory>
        requires { room ≤ 2 ^ 32 }
        ensures items { IfOk result (λ padded. padded.items ≡ replicate 64 0) }
        ensures room { IfOk result (λ padded. padded.room ≡ room + BLOCK) }
    {
        let mut bytes = Vec::with_capacity(alloc, room + BLOCK)?;
        bytes.resize(BLOCK, 0)?;
        Ok(Padded {
            bytes,
            end: BLOCK,
            room: room + BLOCK,
        })
    }

    /// The text and the zeros.
    #[inline(always)]
    pub fn bytes(&self) -> &[u8]
        ensures { result.now ≡ self.now.items }
    {
        &self.bytes[..self.end]
    }

    /// How many bytes these are.
    #[inline(always)]
    pub fn len(&self) -> usize
        ensures { result ≡ length self.now.items }
    {
        self.end
    }

    /// Whether as many bytes more need no further memory.
    pub fn has_memory_for(&self, more: usize) -> bool {
        self.end.saturating_add(more) <= self.bytes.capacity()
    }

    /// Appends bytes and more bytes to the text. If it has no memory for them it takes some for `later` bytes too, if there
    /// is as much.
    pub fn append(&mut self, bytes: &[u8], more: &[u8], later: usize) -> Result<(), OutOfMemory>
        requires padded { BLOCK ≤ length self.old.items }
        ensures items { OnOk result (self.new.items ≡ with_more self.old.items (bytes.now ++ more.now)) }
        ensures few { OnOk result (length self.new.items < 2 ^ 63) }
        ensures refused { OnErr result (self.new.items ≡ self.old.items) }
    {
        let len = self.end - BLOCK;
        let added = bytes.len() + more.len();
        if added <= self.bytes.len() - self.end {
            put_both(&mut self.bytes, len, bytes, more);
            self.end += added;
            return Ok(());
        }
        reserve(&mut self.bytes, self.end, added, later)?;
        append_at(&mut self.bytes, len, bytes, more);
        self.end = self.bytes.len();
        Ok(())
    }

    /// Keeps the first `len` bytes of the text.
    pub fn cut(&mut self, len: usize)
        requires { len + BLOCK ≤ length self.old.items }
        ensures { self.new ≡ record self.old { items = padded (take len self.old.items) } }
    {
        put(&mut self.bytes, len, &[0; BLOCK]);
        self.end = len + BLOCK;
    }

    /// Finds memory for a text of `room` bytes. The text stays.
    pub fn widen(&mut self, room: usize) -> Result<(), OutOfMemory>
        requires { room ≤ 2 ^ 32 }
        ensures items { self.new.items ≡ self.old.items }
        ensures room { OnOk result (room + BLOCK ≤ self.new.room) }
    {
        if self.room < room + BLOCK {
            let more = (room + BLOCK).saturating_sub(self.bytes.len());
            self.bytes.reserve(more)?;
            self.room = room + BLOCK;
        }
        Ok(())
    }

    // Puts a text in the place of the one that it has.
    pub(crate) fn set(&mut self, text: &[u8])
        requires { length text.now + BLOCK ≤ self.old.room }
        ensures { self.new ≡ record self.old { items = padded text.now } }
    {
        fill_up(&mut self.bytes, text.len() + BLOCK);
        put(&mut self.bytes, 0, text);
        put(&mut self.bytes, text.len(), &[0; BLOCK]);
        self.end = text.len() + BLOCK;
    }

    // Drops the bytes before a place.
    pub(crate) fn drop_front(&mut self, at: usize)
        requires { at ≤ length self.old.items }
        ensures { self.new ≡ record self.old { items = drop at self.old.items } }
    {
        self.bytes.copy_within(at..self.end, 0);
        self.end -= at;
    }

    // Appends a piece to the text.
    pub(crate) fn push(&mut self, piece: &[u8])
        requires padded { BLOCK ≤ length self.old.items }
        requires room { length self.old.items + length piece.now ≤ self.old.room }
        ensures { self.new ≡ record self.old { items = with_more self.old.items piece.now } }
    {
        let len = self.end - BLOCK;
        fill_up(&mut self.bytes, self.end + piece.len());
        put(&mut self.bytes, len, piece);
        put(&mut self.bytes, len + piece.len(), &[0; BLOCK]);
        self.end += piece.len();
    }

    // Reads a piece of at most `room` bytes and appends it to the text.
    pub(crate) fn read<S: Source>(&mut self, source: &mut S, room: u64) -> Result<usize, BoundFault>
        requires padded { BLOCK ≤ length self.old.items }
        requires space { length self.old.items + MOST_PIECE ≤ self.old.room }
        ensures read { (more : List ℕ) × IsRead (S.left source.old) (S.left source.new) result more
            × (self.new ≡ record self.old { items = with_more self.old.items more }) }
        ensures most { IfOk result (λ n. n ≤ MOST_PIECE) }
        ensures room { IfOk result (λ n. n ≤ room) }
        ensures too_much { IsErrOf result BoundFault.TooMuch ↔ (room ≡ 0) }
        ensures last { LastRead (S.last source.old) (S.last source.new) result }
        ensures cause { HasCauseIn BoundFault.ReadFault (S.faults source.old) (S.faults source.new) result }
        ensures stays { S.stands_on source.new ≡ S.stands_on source.old }
    {
        let len = self.end - BLOCK;
        fill_up(&mut self.bytes, self.end + MOST_PIECE);
        let read = read_behind(&mut self.bytes, len, source, room);
        let n = read.unwrap_or(0);
        put(&mut self.bytes, len + n, &[0; BLOCK]);
        self.end = len + n + BLOCK;
        read
    }
}

// Reads a piece of at most `room` bytes over those from a place on.
fn read_behind<S: Source>(
    bytes: &mut [u8],
    at: usize,
    source: &mut S,
    room: u64,
) -> Result<usize, BoundFault>
    requires { at + MOST_PIECE ≤ length bytes.old }
    ensures len { length bytes.new ≡ length bytes.old }
    ensures read { (more : List ℕ) × IsRead (S.left source.old) (S.left source.new) result more
        × (take (at + length more) bytes.new ≡ take at bytes.old ++ more) }
    ensures most { IfOk result (λ n. n ≤ MOST_PIECE) }
    ensures room { IfOk result (λ n. n ≤ room) }
    ensures too_much { IsErrOf result BoundFault.TooMuch ↔ (room ≡ 0) }
    ensures last { LastRead (S.last source.old) (S.last source.new) result }
    ensures cause { HasCauseIn BoundFault.ReadFault (S.faults source.old) (S.faults source.new) result }
    ensures stays { S.stands_on source.new ≡ S.stands_on source.old }
{
    read_within(source, &mut bytes[at..at + MOST_PIECE], room)
}

// Puts a piece over the bytes from a place on.
fn put(bytes: &mut [u8], at: usize, piece: &[u8])
    requires { at + length piece.now ≤ length bytes.old }
    ensures len { length bytes.new ≡ length bytes.old }
    ensures bytes { take (at + length piece.now) bytes.new ≡ take at bytes.old ++ piece.now }
{
    bytes[at..at + piece.len()].copy_from_slice(piece);
}

// Fills up with zeros to a length for which there is memory.
fn fill_up(bytes: &mut Vec<u8>, len: usize)
    requires { len ≤ vec_capacity bytes.old }
    ensures len { len ≤ vec_len bytes.new }
    ensures longer { vec_len bytes.old ≤ vec_len bytes.new }
    ensures same { take (vec_len bytes.old) bytes.new.items ≡ bytes.old.items }
    ensures capacity { vec_capacity bytes.old ≤ vec_capacity bytes.new }
{
    if bytes.len() < len {
        bytes.resize(len, 0).unwrap();
    }
}

// Finds memory for more bytes after the first `end`, and if it can for `later` bytes after these.
fn reserve(bytes: &mut Vec<u8>, end: usize, more: usize, later: usize) -> Result<(), OutOfMemory>
    requires within { end ≤ vec_len bytes.old }
    ensures within { end ≤ vec_len bytes.new }
    ensures same { take end bytes.new.items ≡ take end bytes.old.items }
    ensures memory { OnOk result (end + more ≤ vec_capacity bytes.new) }
    ensures capacity { vec_capacity bytes.old ≤ vec_capacity bytes.new }
{
    if end.saturating_add(more) <= bytes.capacity() {
        return Ok(());
    }
    bytes.truncate(end);
    if bytes.reserve(more.saturating_add(later)).is_err() {
        bytes.reserve(more)?;
    }
    Ok(())
}

// Puts bytes, more bytes and a block of zeros after the first `len`.
fn append_at(all: &mut Vec<u8>, len: usize, bytes: &[u8], more: &[u8])
    requires within { len ≤ vec_len all.old }
    requires memory { len + BLOCK + (length bytes.now + length more.now) ≤ vec_capacity all.old }
    ensures items { all.new.items ≡ (take len all.old.items ++ (bytes.now ++ more.now)) ++ replicate 64 0 }
    ensures capacity { vec_capacity all.old ≤ vec_capacity all.new }
{
    all.truncate(len);
    all.extend_from_slice(bytes).unwrap();
    all.extend_from_slice(more).unwrap();
    all.extend_from_slice(&[0; BLOCK]).unwrap();
}

// Puts bytes, more bytes and a block of zeros over those from a place on.
fn put_both(all: &mut [u8], at: usize, bytes: &[u8], more: &[u8])
    requires { at + BLOCK + (length bytes.now + length more.now) ≤ length all.old }
    ensures len { length all.new ≡ length all.old }
    ensures bytes { take (at + (length bytes.now + length more.now) + BLOCK) all.new ≡ (take at all.old ++ (bytes.now ++ more.now)) ++ replicate 64 0 }
{
    put(all, at, bytes);
    put(all, at + bytes.len(), more);
    put(all, at + bytes.len() + more.len(), &[0; BLOCK]);
}
