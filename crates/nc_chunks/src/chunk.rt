//! One chunk of a list.

ghost use Rattle.std.specs.Prelude.{IfErr, IfOk, OnErr, OnOk, [], get_or, length, ◌++◌, ◌<◌, ◌∷◌, ◌≡◌};
ghost use Rattle.std.specs.Arc.{arc_value};

use crate::owners::share_each;
use std::alloc::{AllocError, AllocFailed, Global};
use std::marker::Model;
use std::sync::Arc;

/// The most items of a chunk.
pub(crate) const CHUNK: usize = 256;

/// At most 256 items, each shared by the copies of the chunk.
#[derive(Drop)]
pub(crate) struct Chunk<T> {
    items: Vec<Arc<T, Global>>,
}

impl<T> Model for Chunk<T> {
    ghost use Rattle.std.specs.Prelude.{List, length, map, ◌≤◌};
    ghost use Rattle.std.specs.Coded.{coded_list};
    ghost use Rattle.std.specs.Arc.{arc_value};

    ghost Value = { List T };

    ghost coded = { coded_list T.code };

    ghost view = { λ c. map arc_value c.items.items };

    ghost invariant = { λ c. length c.items.items ≤ 256 };
}

impl<T> Chunk<T> {
    /// No items, and room for 256.
    pub(crate) fn empty(alloc: Global) -> Result<Chunk<T>, AllocError>
        ensures { IfOk result (λ c. c ≡ []) }
    {
        let items = Vec::with_capacity(alloc, CHUNK)?;
        Ok(Chunk { items })
    }

    pub(crate) fn len(&self) -> usize
        ensures { result ≡ length self.now }
    {
        self.items.len()
    }

    /// The item at this place, counted from 0.
    pub(crate) fn get(&self, index: usize) -> &T
        requires { index < length self.now }
        ensures { result.now ≡ get_or self.now index result.now }
    {
        &self.items[index]
    }
}

impl<T: Drop> Chunk<T> {
    /// Appends an item. After want of memory the chunk is what it was, and the item comes back.
    pub(crate) fn push(&mut self, item: T) -> Result<(), AllocFailed<T>>
        requires { length self.old < 256 }
        ensures added { OnOk result (self.new ≡ self.old ++ item ∷ []) }
        ensures kept { OnErr result (self.new ≡ self.old) }
        ensures value_returned { IfErr result (λ e. e.value ≡ item) }
    {
        if self.items.reserve(1).is_err() {
            return Err(AllocFailed { value: item });
        }
        let item = Arc::new(*self.items.allocator(), item)?;
        match self.items.push(item) {
            Ok(()) => Ok(()),
            Err(_) => unreachable!(),
        }
    }
}

impl<T: Drop> Clone for Chunk<T> {
    ghost is_clone = { λ c d. d ≡ c };

    /// An equal chunk, which shares the items.
    fn clone(&self) -> Result<Chunk<T>, AllocError> {
        let items = share_each(*self.items.allocator(), self.items.as_slice(), CHUNK)?;
        Ok(Chunk { items })
    }
}
