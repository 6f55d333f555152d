//! Lists whose copies may share their memory. They are here, since this is the lowest crate that has lists to share:
//! access lists. In crates above, lists of items, of members and of stamps are shared lists too.
ghost use Rattle.std.specs.Prelude.{◌≡◌, ◌⊎◌, List};
ghost use Rattle.std.specs.List.{AllZip};

use std::alloc::{AllocError, Global};
use std::marker::Model;
use std::mem;
use std::sync::Arc;

/// Elements in order, in a list of its own until it is shared, and from then on in one that all its
/// copies have together. Contracts see the elements.
#[derive(Debug)]
pub struct SharedList<T> {
    kept: Kept<T>,
}

#[derive(Debug, Drop)]
enum Kept<T> {
    Own(Vec<T>),
    Counted(Arc<Vec<T>, Global>),
}

impl<T> Model for SharedList<T> {
    ghost use Rattle.std.specs.Prelude.{List};

    ghost Value = { List T };

    ghost use Rattle.album_lists.specs.SharedLists.{elements};

    ghost view = { λ l. elements l.kept };
}

// By hand, so that what lets it go is proved here, and not again in each crate above.
impl<T: Drop> Drop for SharedList<T> {
    fn drop(self) {
        let SharedList { kept } = self;
        drop(kept);
    }
}

impl<T: Drop> SharedList<T> {
    /// The list of these elements, not shared yet.
    pub fn of(elements: Vec<T>) -> SharedList<T>
        ensures { result ≡ elements.items }
    {
        SharedList {
            kept: Kept::Own(elements),
        }
    }

    /// The elements, in order.
    pub fn as_slice(&self) -> &[T]
        ensures { result.now ≡ self.now }
    {
        match &self.kept {
            Kept::Own(elements) => elements.as_slice(),
            Kept::Counted(elements) => elements.as_slice(),
        }
    }

    /// Lets the copies that are made from now on share the elements: each then costs a count, whatever the
    /// length. Who keeps a value calls it: for what is prepared, first values, hints, and a second round's stamps.
    ///
    /// # Errors
    ///
    /// Where memory is refused, the list stays as it was.
    pub fn make_shared(&mut self) -> Result<(), AllocError>
        ensures same { self.new ≡ self.old }
    {
        let Kept::Own(elements) = &mut self.kept else {
            return Ok(());
        };
        let alloc = *elements.allocator();
        match Arc::new(alloc, mem::replace(elements, Vec::new(alloc))) {
            Ok(elements) => {
                self.kept = Kept::Counted(elements);
                Ok(())
            }
            Err(failed) => {
                *elements = failed.value;
                Err(AllocError)
            }
        }
    }
}

// By hand, since a count is no clone of each element.
impl<T: Clone + Drop> Clone for SharedList<T> {
    ghost is_clone = { λ list copy. (copy ≡ list) ⊎ AllZip T.is_clone list copy };

    fn clone(&self) -> Result<SharedList<T>, AllocError> {
        let kept = match &self.kept {
            Kept::Own(elements) => Kept::Own(elements.clone()?),
            Kept::Counted(elements) => Kept::Counted(Arc::try_clone(elements)?),
        };
        Ok(SharedList { kept })
    }
}
