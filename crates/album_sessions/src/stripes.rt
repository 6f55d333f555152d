//! Stripes: striped locks of items, at which requests queue whose writes clash.
//!
//! In a checked store a write is aborted where something came between its view and its Prepare. Where many write one
//! item and all ask again at once, they keep aborting each other. So whoever asks again first takes the stripes of its
//! first object and of the items that it wants to write, and has them until that attempt is over. Nothing that is
//! promised rests on them.
use album_items::ItemId;
use album_views::Ask;
use std::alloc::{AllocError, Global};
use std::sync::{Mutex, MutexGuard, Wait};

/// How many stripes a service has. Items share them.
const STRIPES: usize = 1_024;

/// The stripes of a service, for all its sessions.
pub struct Stripes {
    stripes: Vec<Mutex<()>>,
}

// By hand, so that what lets it go is proved here, and not again in each crate above.
impl Drop for Stripes {
    fn drop(self) {
        let Stripes { stripes } = self;
        drop(stripes);
    }
}

impl Stripes {
    /// Where there is no memory there are fewer.
    pub fn new(alloc: Global) -> Stripes {
        let mut stripes = Vec::new(alloc);
        for _ in 0..STRIPES {
            if stripes.push(Mutex::new(())).is_err() {
                break;
            }
        }
        Stripes { stripes }
    }

    /// Whether somebody has the stripe of the item.
    pub(crate) fn is_taken(&self, item: ItemId) -> bool {
        match self.stripes.get(index_of(item)) {
            Some(stripe) => stripe.try_lock().is_none(),
            None => false,
        }
    }

    /// Waits for the stripes of the ask's objects and of these items, and takes them. Each thread takes its own in
    /// rising order, so no two wait for each other; and whoever has them waits for partitions alone.
    ///
    /// # Errors
    ///
    /// `AllocError`. None is taken then.
    pub(crate) fn take<R: Wait>(
        &self,
        rt: &R,
        alloc: Global,
        ask: &Ask,
        items: &[ItemId],
    ) -> Result<Vec<MutexGuard<'_, ()>>, AllocError> {
        let mut taken = Vec::new(alloc);
        for index in indices_of(alloc, ask, items)? {
            if let Some(stripe) = self.stripes.get(index) {
                taken.push(stripe.lock(rt))?;
            }
        }
        Ok(taken)
    }
}

/// The indices of their stripes, rising, each once.
fn indices_of(alloc: Global, ask: &Ask, items: &[ItemId]) -> Result<Vec<usize>, AllocError> {
    let objects = ask.objects(alloc)?;
    let mut indices = Vec::new(alloc);
    for item in objects.iter().chain(items) {
        indices.push(index_of(*item))?;
    }
    indices.sort()?;
    indices.dedup();
    Ok(indices)
}

/// The index of the item's stripe: far apart for numbers that follow each other.
fn index_of(item: ItemId) -> usize {
    let word = item.number().wrapping_mul(4) ^ u64::from(item.kind().code());
    (word.wrapping_mul(0x9E37_79B9_7F4A_7C15) >> 54) as usize
}
