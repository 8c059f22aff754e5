//! Lists in chunks.

ghost use Rattle.nc_chunks.specs.Chunking.{HasRoom, IsChunked};
ghost use Rattle.std.specs.Arc.{arc_value};
ghost use Rattle.std.specs.List.{flat_map};
ghost use Rattle.std.specs.Prelude.{IfErr, IfOk, IsTrue, OnErr, OnOk, [], get_or, length, option_copied, slice_get, ◌++◌, ◌-◌, ◌<◌, ◌∷◌, ◌≡◌, ◌↔◌};

use crate::chunk::{CHUNK, Chunk};
use crate::owners::share_each;
use std::alloc::{AllocError, AllocFailed, Global};
use std::marker::Model;
use std::sync::Arc;

/// A list whose items stand in chunks of 256, behind `Arc`.
#[derive(Drop)]
pub struct Chunks<T> {
    /// Each but the last is full.
    chunks: Vec<Arc<Chunk<T>, Global>>,
    len: usize,
}

impl<T> Model for Chunks<T> {
    ghost use Rattle.nc_chunks.specs.Chunking.{IsChunked};
    ghost use Rattle.std.specs.Prelude.{List, length, ◌≡◌};
    ghost use Rattle.std.specs.Coded.{coded_list};
    ghost use Rattle.std.specs.Arc.{arc_value};
    ghost use Rattle.std.specs.List.{flat_map};

    ghost Value = { List T };

    ghost coded = { coded_list T.code };

    ghost view = { λ c. flat_map arc_value c.chunks.items };

    ghost invariant = { λ c. IsChunked arc_value c.chunks.items
        × (c.len ≡ length (flat_map arc_value c.chunks.items)) };
}

impl<T> Chunks<T> {
    /// No items. No memory is taken.
    pub fn empty(alloc: Global) -> Chunks<T>
        ensures { result ≡ [] }
    {
        Chunks {
            chunks: Vec::new(alloc),
            len: 0,
        }
    }

    /// The number of items.
    pub fn len(&self) -> usize
        ensures { result ≡ length self.now }
    {
        self.len
    }

    /// The item at this place, counted from 0.
    pub fn get(&self, index: usize) -> &T
        requires { index < length self.now }
        ensures { result.now ≡ get_or self.now index result.now }
    {
        self.chunks[index / CHUNK].get(index % CHUNK)
    }

    /// The last item.
    pub fn last(&self) -> Option<&T>
        ensures { option_copied result ≡ slice_get self.now (length self.now - 1) }
    {
        if self.len == 0 {
            None
        } else {
            Some(self.get(self.len - 1))
        }
    }
}

/// Whether the last of these chunks has room.
fn has_room<T>(chunks: &[Arc<Chunk<T>, Global>]) -> bool
    ensures { IsTrue result ↔ HasRoom arc_value chunks.now }
{
    let Some(last) = chunks.last() else {
        return false;
    };
    last.len() < CHUNK
}

/// Sees to it that the last of these chunks has room.
fn make_room<T: Drop>(chunks: &mut Vec<Arc<Chunk<T>, Global>>) -> Result<(), AllocError>
    requires { IsChunked arc_value chunks.old.items }
    ensures room { OnOk result (HasRoom arc_value chunks.new.items) }
    ensures chunked { IsChunked arc_value chunks.new.items }
    ensures kept { flat_map arc_value chunks.new.items ≡ flat_map arc_value chunks.old.items }
{
    if has_room(chunks.as_slice()) {
        return Ok(());
    }
    let alloc = *chunks.allocator();
    let chunk = Arc::new(alloc, Chunk::empty(alloc)?)?;
    chunks.push(chunk)?;
    Ok(())
}

/// Appends to a chunk. Who shares the chunk keeps it as it was.
fn push_own<T: Drop>(chunk: &mut Arc<Chunk<T>, Global>, item: T) -> Result<(), AllocFailed<T>>
    requires { length (arc_value chunk.old) < 256 }
    ensures added { OnOk result (arc_value chunk.new ≡ arc_value chunk.old ++ item ∷ []) }
    ensures kept { OnErr result (arc_value chunk.new ≡ arc_value chunk.old) }
    ensures value_returned { IfErr result (λ e. e.value ≡ item) }
{
    match Arc::make_mut(chunk) {
        Ok(own) => own.push(item),
        Err(_) => Err(AllocFailed { value: item }),
    }
}

/// Appends to the last of these chunks.
fn push_last<T: Drop>(
    chunks: &mut Vec<Arc<Chunk<T>, Global>>,
    item: T,
) -> Result<(), AllocFailed<T>>
    requires chunked { IsChunked arc_value chunks.old.items }
    requires room { HasRoom arc_value chunks.old.items }
    ensures chunked { IsChunked arc_value chunks.new.items }
    ensures added { OnOk result (flat_map arc_value chunks.new.items ≡ flat_map arc_value
        chunks.old.items ++ item ∷ []) }
    ensures kept { OnErr result (flat_map arc_value chunks.new.items ≡ flat_map arc_value
        chunks.old.items) }
    ensures value_returned { IfErr result (λ e. e.value ≡ item) }
{
    let last = chunks.len() - 1;
    push_own(&mut chunks[last], item)
}

impl<T: Drop> Chunks<T> {
    /// An equal list, which shares all chunks.
    pub fn share(&self) -> Result<Chunks<T>, AllocError>
        ensures { IfOk result (λ c. c ≡ self.now) }
    {
        let room = self.chunks.len();
        let chunks = share_each(*self.chunks.allocator(), self.chunks.as_slice(), room)?;
        Ok(Chunks {
            chunks,
            len: self.len,
        })
    }

    /// Appends an item. Where the last chunk is shared it is copied first, which takes up to 256 more owners of its
    /// items; no other chunk is. After want of memory the list is what it was, and the item comes back.
    pub fn push(&mut self, item: T) -> Result<(), AllocFailed<T>>
        ensures added { OnOk result (self.new ≡ self.old ++ item ∷ []) }
        ensures kept { OnErr result (self.new ≡ self.old) }
        ensures value_returned { IfErr result (λ e. e.value ≡ item) }
    {
        if self.len == usize::MAX || make_room(&mut self.chunks).is_err() {
            return Err(AllocFailed { value: item });
        }
        push_last(&mut self.chunks, item)?;
        self.len += 1;
        Ok(())
    }
}
