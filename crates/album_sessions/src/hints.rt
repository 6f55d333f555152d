//! Hints: which items the last view of an ask had, for later asks that begin alike. Values are never kept here: what a
//! hint names is read anew, and counts only where it is closed.
ghost use Rattle.std.specs.Prelude.{IfOk, IfSome};
ghost use Rattle.album_views.specs.Steps.{AreReadable};

use album_items::{ItemId, Items};
use album_views::{Ask, Relatives};
use std::alloc::Global;
use std::sync::Mutex;

/// How many hints a service keeps at most. A newer one takes the place of an older one.
pub const MAX_HINTS: usize = 4_096;

/// How many asks a hint serves. Then an ask finds its items by itself again, since a hint may name more than it needs.
const MAX_USES: u16 = 1_000;

/// What asks have in common that look at the same items: their object, and which relatives they look at. An ask of
/// several objects has none, and so no hint: what it looks at for one object is nothing that another ask needs.
#[derive(Clone, Copy)]
pub(crate) struct Topic {
    object: Option<ItemId>,
    relatives: Relatives,
}

impl Topic {
    /// The topic of the ask.
    pub(crate) fn of(ask: &Ask) -> Topic {
        Topic {
            object: only_object(ask),
            relatives: ask.relatives(),
        }
    }

    /// Whether this is the other topic.
    fn is(&self, other: &Topic) -> bool {
        let same_object = match (self.object, other.object) {
            (Some(one), Some(other)) => one.is(other),
            _ => false,
        };
        same_object && place(self.relatives) == place(other.relatives)
    }

    /// The index of its hint: below `MAX_HINTS`, far apart for numbers that follow each other.
    fn slot(&self) -> usize {
        let Some(object) = self.object else {
            return 0;
        };
        let place = place(self.relatives) | u64::from(object.kind().code());
        let word = object.number().wrapping_mul(16) ^ place;
        (word.wrapping_mul(0x9E37_79B9_7F4A_7C15) >> 52) as usize
    }
}

/// The items of a view, and the topic of its ask.
#[derive(Drop)]
pub(crate) struct Hint {
    topic: Topic,
    items: Items,
    uses: u16,
    ghost readable: { AreReadable items },
}

impl Hint {
    /// These items of the topic. Its copies share them, if there is memory for that.
    pub(crate) fn new(topic: Topic, mut items: Items) -> Hint
        requires { AreReadable items }
    {
        let _ = items.make_shared();
        Hint {
            topic,
            items,
            uses: 0,
        }
    }

    /// The items for one ask more.
    fn use_once(&mut self) -> Option<Items>
        ensures { IfSome result AreReadable }
    {
        if self.uses >= MAX_USES {
            return None;
        }
        self.uses += 1;
        self.items.clone().ok()
    }
}

/// The hints of a service, for all its sessions. Each has a lock of its own, and no one waits for it: where another
/// session has it, there is no hint.
pub struct Hints {
    slots: Vec<Mutex<Option<Hint>>>,
}

// By hand, so that what lets it go is proved here, and not again in each crate above.
impl Drop for Hints {
    fn drop(self) {
        let Hints { slots } = self;
        drop(slots);
    }
}

impl Hints {
    /// No hint yet, and room for so many. Where there is no memory there is less room.
    pub fn new(alloc: Global, most: usize) -> Hints {
        let mut slots = Vec::new(alloc);
        for _ in 0..most {
            if slots.push(Mutex::new(None)).is_err() {
                break;
            }
        }
        Hints { slots }
    }

    /// The items of the topic's hint, if there is one.
    pub(crate) fn find(&self, topic: &Topic) -> Option<Items>
        ensures { IfSome result AreReadable }
    {
        let Some(slot) = self.slots.get(topic.slot()) else {
            return None;
        };
        let Some(mut kept) = slot.try_lock() else {
            return None;
        };
        match &mut *kept {
            Some(hint) if hint.topic.is(topic) => hint.use_once(),
            Some(_) | None => None,
        }
    }

    /// Keeps the hint, in place of one that was there. One of the same topic stays, unless this one replaces it.
    pub(crate) fn keep(&self, hint: Hint, replaces: bool) {
        if hint.topic.object.is_none() {
            return;
        }
        let Some(slot) = self.slots.get(hint.topic.slot()) else {
            return;
        };
        if let Some(mut kept) = slot.try_lock() {
            let stays = matches!(&*kept, Some(other) if other.topic.is(&hint.topic));
            if replaces || !stays {
                *kept = Some(hint);
            }
        }
    }

    /// Lets the topic's hint go.
    pub(crate) fn forget(&self, topic: &Topic) {
        let Some(slot) = self.slots.get(topic.slot()) else {
            return;
        };
        if let Some(mut kept) = slot.try_lock() {
            if matches!(&*kept, Some(hint) if hint.topic.is(topic)) {
                *kept = None;
            }
        }
    }
}

/// The ask's object, where it has one alone.
fn only_object(ask: &Ask) -> Option<ItemId> {
    match ask {
        Ask::Read { object } => Some(*object),
        Ask::List { album } => Some(*album),
        Ask::GetList { object } => Some(*object),
        Ask::Head { object } => Some(*object),
        Ask::Children { album } => Some(*album),
        Ask::AddPicture { album, .. } => Some(*album),
        Ask::AddAlbum { album, .. } => Some(*album),
        Ask::AddGroup { album, .. } => Some(*album),
        Ask::Retitle { object, .. } => Some(*object),
        Ask::Replace { object, .. } => Some(*object),
        Ask::Delete { object } => Some(*object),
        Ask::Move { .. } | Ask::Share { .. } => None,
        Ask::SetLists { lists } => match lists.as_slice() {
            [new] => Some(new.object),
            _ => None,
        },
        Ask::SetOwner { object, .. } => Some(*object),
        Ask::SetMembers { object, .. } => Some(*object),
    }
}

/// What tells topics of one object apart: an ask that looks at the home or the children looks at more.
fn place(relatives: Relatives) -> u64 {
    match relatives {
        Relatives::None => 0,
        Relatives::HomeOf(_) => 4,
        Relatives::ChildrenOf(_) => 8,
    }
}
