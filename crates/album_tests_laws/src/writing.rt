//! What each ask writes: exactly what it says, and nothing else of an item than it says. Whole values are spelled out,
//! so that the laws cite neither the table of effects nor what it is made of.
ghost use Rattle.std.specs.Prelude.{◌≡◌, ◌≢◌, ◌⊎◌, ◌++◌, ◌∷◌, [], ◌==◌, not, ℕ, List, Some, Contains, filter};
ghost use Rattle.album_lists.specs.Inheritance.{inherited};
ghost use Rattle.album_lists.specs.declared.lists.Ace.{Ace};
ghost use Rattle.album_access.specs.declared.types.AceType.TheVariants.{Allowed};
ghost use Rattle.album_lists.specs.declared.lists.Holder.TheVariants.{Plain, Folder};
ghost use Rattle.album_lists.specs.declared.whos.Who.TheVariants.{Owner};
ghost use Rattle.album_lists.specs.declared.whos.Member.{Member};
ghost use Rattle.album_eval.specs.declared.facts.Principal.TheVariants as principal;
ghost use Rattle.album_items.specs.ItemIds.{picture, album, list, group};
ghost use Rattle.album_items.specs.Transactions.{items_written};
ghost use Rattle.album_items.specs.Values.{list_of};
ghost use Rattle.album_items.specs.declared.values.Album.{Album};
ghost use Rattle.album_items.specs.declared.values.Group.{Group};
ghost use Rattle.album_items.specs.declared.values.Picture.{Picture};
ghost use Rattle.album_items.specs.declared.values.Value.{Value};
ghost use Rattle.album_items.specs.declared.values.Value.TheVariants as value;
ghost use Rattle.album_views.specs.Seen.{seen};
ghost use Rattle.album_views.specs.declared.asks.Ask.TheVariants as ask;
ghost use Rattle.album_views.specs.declared.asks.NewList.{NewList};
ghost use Rattle.album_views.specs.declared.asks.NewMembership.{NewMembership};
ghost use Rattle.album_permits.specs.Effects.{effect_of};
ghost use Rattle.album_permits.specs.Permits.{PermitState};
ghost use Rattle.album_tests_laws.specs.Asked.{handed_over, IsListAsked, IsMembershipAsked};

/// A law: what is retitled has the title that is asked, and is otherwise as it was. Nothing else is written.
pub fn titles_are_as_asked()
    ensures picture { (permit : PermitState) (stamp object : ℕ) (title : List ℕ) (was : Picture)
        → permit.view.ask ≡ ask.Retitle object title
        → seen permit.view.rows object ≡ value.Picture was
        → effect_of permit stamp ≡ (object, value.Picture (record was { title = title })) ∷ [] }
    ensures album { (permit : PermitState) (stamp object : ℕ) (title : List ℕ) (was : Album)
        → permit.view.ask ≡ ask.Retitle object title
        → seen permit.view.rows object ≡ value.Album was
        → effect_of permit stamp ≡ (object, value.Album (record was { title = title })) ∷ [] }
{}

/// A law: a picture whose content is replaced has the content that is asked, and is otherwise as it was.
pub fn contents_are_as_asked()
    ensures { (permit : PermitState) (stamp object : ℕ) (content : List ℕ) (was : Picture)
        → permit.view.ask ≡ ask.Replace object content
        → seen permit.view.rows object ≡ value.Picture was
        → effect_of permit stamp ≡ (object, value.Picture (record was { content = content })) ∷ [] }
{}

/// A law: a picture that is deleted is gone, and so is its list. Its home keeps its other children.
pub fn a_deletion_is_as_asked()
    ensures { (permit : PermitState) (stamp number : ℕ) (was : Picture) (home : Album)
        → permit.view.ask ≡ ask.Delete (picture number)
        → seen permit.view.rows (picture number) ≡ value.Picture was
        → seen permit.view.rows (album was.home) ≡ value.Album home
        → effect_of permit stamp
        ≡ (picture number, value.Missing)
        ∷ (list was.head.list, value.Missing)
        ∷ (
          album was.home,
          value.Album (record home {
            children = filter (λ child. not (picture number == child)) home.children;
          }),
        )
        ∷ [] }
{}

/// A law: a picture that is moved is in the album that is asked, as its last child, and no longer in its home.
pub fn a_move_is_as_asked()
    ensures moved { (permit : PermitState) (stamp number to : ℕ) (was : Picture) (old new : Album)
        → permit.view.ask ≡ ask.Move (picture number) (album to)
        → seen permit.view.rows (picture number) ≡ value.Picture was
        → seen permit.view.rows (album was.home) ≡ value.Album old
        → seen permit.view.rows (album to) ≡ value.Album new
        → was.home ≢ to
        → effect_of permit stamp
        ≡ (picture number, value.Picture (record was { home = to }))
        ∷ (
          album was.home,
          value.Album (record old {
            children = filter (λ child. not (picture number == child)) old.children;
          }),
        )
        ∷ (
          album to,
          value.Album (record new {
            children = filter (λ child. not (picture number == child)) new.children ++ picture number ∷ [];
          }),
        )
        ∷ [] }
    ensures stayed { (permit : PermitState) (stamp number to : ℕ) (was : Picture) (home : Album)
        → permit.view.ask ≡ ask.Move (picture number) (album to)
        → seen permit.view.rows (picture number) ≡ value.Picture was
        → seen permit.view.rows (album to) ≡ value.Album home
        → was.home ≡ to
        → effect_of permit stamp
        ≡ (picture number, value.Picture (record was { home = to }))
        ∷ (
          album to,
          value.Album (record home {
            children = filter (λ child. not (picture number == child)) home.children ++ picture number ∷ [];
          }),
        )
        ∷ [] }
{}

/// A law: root writes what it would write as a user who isn't root. So what it adds to an album is its own.
pub fn root_writes_as_the_user()
    ensures { (permit : PermitState) (stamp : ℕ) (user : List ℕ)
        → permit.principal ≡ principal.Root user
        → effect_of permit stamp ≡ effect_of (record permit { principal = principal.User user }) stamp }
{}

/// A law: what is added to an album is what is asked. It is the principal's, in the album's head group and with a list
/// of its own, which inherits of the album's. It is the album's last child.
pub fn additions_are_as_asked()
    ensures picture { (permit : PermitState) (stamp number : ℕ) (title content user : List ℕ) (into : Album)
        (entries : List Ace)
        → permit.view.ask ≡ ask.AddPicture (album number) title content
        → permit.principal ≡ principal.User user
        → seen permit.view.rows (album number) ≡ value.Album into
        → seen permit.view.rows (list into.head.list) ≡ value.List entries
        → effect_of permit stamp
        ≡ (
          picture stamp,
          value.Picture (record {
            title = title;
            content = content;
            head = record { owner = user; group = into.head.group; list = stamp };
            home = number;
          }),
        )
        ∷ (list stamp, value.List (inherited Plain entries))
        ∷ (
          album number,
          value.Album (record into {
            children = filter (λ child. not (picture stamp == child)) into.children ++ picture stamp ∷ [];
          }),
        )
        ∷ [] }
    ensures album { (permit : PermitState) (stamp number : ℕ) (title user : List ℕ) (into : Album)
        (entries : List Ace)
        → permit.view.ask ≡ ask.AddAlbum (album number) title
        → permit.principal ≡ principal.User user
        → seen permit.view.rows (album number) ≡ value.Album into
        → seen permit.view.rows (list into.head.list) ≡ value.List entries
        → stamp ≢ number
        → effect_of permit stamp
        ≡ (
          album stamp,
          value.Album (record {
            title = title;
            head = record { owner = user; group = into.head.group; list = stamp };
            home = Some number;
            children = [];
          }),
        )
        ∷ (list stamp, value.List (inherited Folder entries))
        ∷ (
          album number,
          value.Album (record into {
            children = filter (λ child. not (album stamp == child)) into.children ++ album stamp ∷ [];
          }),
        )
        ∷ [] }
{}

/// A law: a group that is made for an album has the members that are asked. It is the principal's, in the album's head
/// group, and by its list its owner has all rights, and nobody else has any. The album isn't written.
pub fn a_new_group_is_as_asked()
    ensures { (permit : PermitState) (stamp number : ℕ) (members : List Member) (user : List ℕ) (into : Album)
        → permit.view.ask ≡ ask.AddGroup (album number) members
        → permit.principal ≡ principal.User user
        → seen permit.view.rows (album number) ≡ value.Album into
        → effect_of permit stamp
        ≡ (
          group stamp,
          value.Group (record {
            head = record { owner = user; group = into.head.group; list = stamp };
            members = members;
          }),
        )
        ∷ (
          list stamp,
          value.List (record {
            sort = Allowed;
            who = Owner;
            mask = record { 0 = 2032127 };
            flags = record { 0 = 0 };
          } ∷ []),
        )
        ∷ [] }
{}

/// A law: an object that gets another owner has the owner and the head group that are asked. It is otherwise as it was.
pub fn owners_are_as_asked()
    ensures picture { (permit : PermitState) (stamp object number : ℕ) (owner : List ℕ) (was : Picture)
        → permit.view.ask ≡ ask.SetOwner object owner number
        → seen permit.view.rows object ≡ value.Picture was
        → effect_of permit stamp
        ≡ (object, value.Picture (record was { head = handed_over owner number was.head })) ∷ [] }
    ensures album { (permit : PermitState) (stamp object number : ℕ) (owner : List ℕ) (was : Album)
        → permit.view.ask ≡ ask.SetOwner object owner number
        → seen permit.view.rows object ≡ value.Album was
        → effect_of permit stamp
        ≡ (object, value.Album (record was { head = handed_over owner number was.head })) ∷ [] }
    ensures group { (permit : PermitState) (stamp object number : ℕ) (owner : List ℕ) (was : Group)
        → permit.view.ask ≡ ask.SetOwner object owner number
        → seen permit.view.rows object ≡ value.Group was
        → effect_of permit stamp
        ≡ (object, value.Group (record was { head = handed_over owner number was.head })) ∷ [] }
{}

/// A law: a group whose members are set has the members that are asked, and is otherwise as it was.
pub fn members_are_as_asked()
    ensures { (permit : PermitState) (stamp object : ℕ) (members : List Member) (was : Group)
        → permit.view.ask ≡ ask.SetMembers object members
        → seen permit.view.rows object ≡ value.Group was
        → effect_of permit stamp ≡ (object, value.Group (record was { members = members })) ∷ [] }
{}

/// A law: where lists are set, the list of each object is written, and nothing else. Each has all the entries that are
/// asked for its object, and no others.
pub fn lists_are_as_asked()
    ensures each { (permit : PermitState) (stamp item : ℕ) (lists : List NewList) (new : NewList)
        → permit.view.ask ≡ ask.SetLists lists
        → Contains lists new
        → Contains (list_of (seen permit.view.rows new.object)) item
        → Contains (items_written (effect_of permit stamp)) item }
    ensures only { (permit : PermitState) (stamp item : ℕ) (is : Value) (lists : List NewList)
        → permit.view.ask ≡ ask.SetLists lists
        → Contains (effect_of permit stamp) (item, is)
        → IsListAsked (seen permit.view.rows) lists item is }
{}

/// A law: a share writes nothing but the lists of its objects and its groups. Each list has the entries that are asked
/// for its object, and each group the members that are asked for it. (That it writes each of them is a law of
/// `album_permits`.)
pub fn shares_are_as_asked()
    ensures { (permit : PermitState) (stamp item : ℕ) (is : Value) (lists : List NewList)
        (members : List NewMembership)
        → permit.view.ask ≡ ask.Share lists members
        → Contains (effect_of permit stamp) (item, is)
        → IsListAsked (seen permit.view.rows) lists item is
        ⊎ IsMembershipAsked (seen permit.view.rows) members item is }
{}
