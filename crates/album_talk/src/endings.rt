//! How a request has ended: for whoever writes that down beside what was noted of it.
ghost use Rattle.std.specs.Prelude.{◌≡◌};
ghost use Rattle.album_talk.specs.Endings.{word_of, word_text, object_of, outcome_of};

use album_items::ItemId;
use album_permits::Answer;
use album_stamps::{Refusal, Stamp};
use album_views::Ask;

/// Which ask a request is, by the word that its line has under `do`.
#[derive(Clone, Copy, Debug, PartialEq, Eq)]
pub enum AskWord {
    Read,
    List,
    GetList,
    Head,
    Children,
    AddPicture,
    AddAlbum,
    AddGroup,
    Retitle,
    Replace,
    Delete,
    Move,
    SetLists,
    SetOwner,
    SetMembers,
    Share,
}

impl AskWord {
    /// That of an ask.
    pub fn of(ask: &Ask) -> AskWord
        ensures { result ≡ word_of ask.now }
    {
        match ask {
            Ask::Read { .. } => AskWord::Read,
            Ask::List { .. } => AskWord::List,
            Ask::GetList { .. } => AskWord::GetList,
            Ask::Head { .. } => AskWord::Head,
            Ask::Children { .. } => AskWord::Children,
            Ask::AddPicture { .. } => AskWord::AddPicture,
            Ask::AddAlbum { .. } => AskWord::AddAlbum,
            Ask::AddGroup { .. } => AskWord::AddGroup,
            Ask::Retitle { .. } => AskWord::Retitle,
            Ask::Replace { .. } => AskWord::Replace,
            Ask::Delete { .. } => AskWord::Delete,
            Ask::Move { .. } => AskWord::Move,
            Ask::SetLists { .. } => AskWord::SetLists,
            Ask::SetOwner { .. } => AskWord::SetOwner,
            Ask::SetMembers { .. } => AskWord::SetMembers,
            Ask::Share { .. } => AskWord::Share,
        }
    }

    /// The word.
    pub fn as_str(self) -> &'static str
        ensures { result.now ≡ word_text self }
    {
        match self {
            AskWord::Read => "read",
            AskWord::List => "list",
            AskWord::GetList => "get_list",
            AskWord::Head => "head",
            AskWord::Children => "children",
            AskWord::AddPicture => "add_picture",
            AskWord::AddAlbum => "add_album",
            AskWord::AddGroup => "add_group",
            AskWord::Retitle => "retitle",
            AskWord::Replace => "replace",
            AskWord::Delete => "delete",
            AskWord::Move => "move",
            AskWord::SetLists => "set_lists",
            AskWord::SetOwner => "set_owner",
            AskWord::SetMembers => "set_members",
            AskWord::Share => "share",
        }
    }
}

/// What a request came to.
#[derive(Clone, Copy, Debug)]
pub enum Outcome {
    /// It is served, or listed.
    Served,
    Denied,
    /// An object that it names is missing.
    Missing,
    /// It has no view.
    Busy,
    /// It is written at this stamp.
    Committed(Stamp),
    /// It is never written.
    Aborted(Stamp),
    /// Its write began at this stamp, and isn't settled.
    Unsettled(Stamp, Refusal),
    /// It is refused, before it was ruled on or afterwards.
    Refused(Refusal),
}

impl Outcome {
    /// That of an answer.
    pub fn of(answer: &Answer) -> Outcome
        ensures { result ≡ outcome_of answer.now }
    {
        match answer {
            Answer::Served(_) => Outcome::Served,
            Answer::Denied(_) => Outcome::Denied,
            Answer::Missing(_) => Outcome::Missing,
            Answer::Busy(_) => Outcome::Busy,
            Answer::Committed(stamp) => Outcome::Committed(*stamp),
            Answer::Aborted(stamp) => Outcome::Aborted(*stamp),
            Answer::Unsettled(stamp, refusal) => Outcome::Unsettled(*stamp, *refusal),
            Answer::Refused(refusal) => Outcome::Refused(*refusal),
        }
    }
}

/// How a request has ended.
#[derive(Clone, Copy, Debug)]
pub struct Ending {
    pub ask: AskWord,
    /// The object that the ask is for, or the album that it is in. One that names many has none here.
    pub object: Option<ItemId>,
    pub outcome: Outcome,
}

/// The object that an ask is for, or the album that it is in.
pub(crate) fn object_of(ask: &Ask) -> Option<ItemId>
    ensures { result ≡ object_of ask.now }
{
    match ask {
        Ask::Read { object } => Some(*object),
        Ask::List { album } => Some(*album),
        Ask::GetList { object } => Some(*object),
        Ask::Head { object } => Some(*object),
        Ask::Children { album } => Some(*album),
        Ask::AddPicture { album, .. } => Some(*album),
        Ask::AddAlbum { album, .. } => Some(*album),
        Ask::AddGroup { album, .. } => Some(*album),
        Ask::Retitle { object, .. } => Some(*object),
        Ask::Replace { object, .. } => Some(*object),
        Ask::Delete { object } => Some(*object),
        Ask::Move { object, .. } => Some(*object),
        Ask::SetLists { .. } => None,
        Ask::SetOwner { object, .. } => Some(*object),
        Ask::SetMembers { object, .. } => Some(*object),
        Ask::Share { .. } => None,
    }
}
