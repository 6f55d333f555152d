//! Which right an ask needs, and of which object: exactly that one. And which rights nobody can take away.
ghost use Rattle.std.specs.Prelude.{◌≡◌, ◌↔◌, ◌&&◌, ◌||◌, ℕ, List, Some, true, Contains, IsTrue};
ghost use Rattle.std.specs.List.{list_all};
ghost use Rattle.album_lists.specs.declared.whos.Member.{Member};
ghost use Rattle.album_eval.specs.declared.facts.Principal.TheVariants.{Root};
ghost use Rattle.album_eval.specs.declared.policies.Policy.TheVariants.{Three};
ghost use Rattle.album_items.specs.ItemIds.{album};
ghost use Rattle.album_items.specs.Values.{head_of};
ghost use Rattle.album_items.specs.declared.values.Head.{Head};
ghost use Rattle.album_items.specs.declared.values.Picture.{Picture};
ghost use Rattle.album_items.specs.declared.values.Value.TheVariants as value;
ghost use Rattle.album_views.specs.ReadSets.{is_owned_by};
ghost use Rattle.album_views.specs.declared.asks.Ask.TheVariants as ask;
ghost use Rattle.album_views.specs.declared.asks.NewList.{NewList};
ghost use Rattle.album_views.specs.declared.asks.NewMembership.{NewMembership};
ghost use Rattle.album_listing.specs.Basis.{Basis};
ghost use Rattle.album_listing.specs.Masks.{READ_DATA, WRITE_DATA, LIST_DIRECTORY, ADD_FILE, ADD_SUBDIRECTORY, DELETE_CHILD, READ_ATTRIBUTES, WRITE_ATTRIBUTES, DELETE, READ_ACL, WRITE_ACL, WRITE_OWNER};
ghost use Rattle.album_listing.specs.Reasons.{is_granted_on};
ghost use Rattle.album_permits.specs.Findings.{ruling_of};
ghost use Rattle.album_permits.specs.declared.findings.Finding.TheVariants.{Granted};

/// A law: an ask of one object is granted exactly where its right to that object is. An object that isn't there grants
/// nothing.
pub fn an_ask_needs_its_right()
    ensures read { (basis : Basis) (object : ℕ)
        → (ruling_of basis (ask.Read object) ≡ Granted) ↔ IsTrue (is_granted_on basis object READ_DATA) }
    ensures listed { (basis : Basis) (into : ℕ)
        → (ruling_of basis (ask.List into) ≡ Granted) ↔ IsTrue (is_granted_on basis into LIST_DIRECTORY) }
    ensures entries { (basis : Basis) (object : ℕ)
        → (ruling_of basis (ask.GetList object) ≡ Granted) ↔ IsTrue (is_granted_on basis object READ_ACL) }
    ensures head { (basis : Basis) (object : ℕ)
        → (ruling_of basis (ask.Head object) ≡ Granted) ↔ IsTrue (is_granted_on basis object READ_ATTRIBUTES) }
    ensures children { (basis : Basis) (into : ℕ)
        → (ruling_of basis (ask.Children into) ≡ Granted) ↔ IsTrue (is_granted_on basis into LIST_DIRECTORY) }
    ensures picture { (basis : Basis) (into : ℕ) (title content : List ℕ)
        → (ruling_of basis (ask.AddPicture into title content) ≡ Granted)
        ↔ IsTrue (is_granted_on basis into ADD_FILE) }
    ensures album { (basis : Basis) (into : ℕ) (title : List ℕ)
        → (ruling_of basis (ask.AddAlbum into title) ≡ Granted)
        ↔ IsTrue (is_granted_on basis into ADD_SUBDIRECTORY) }
    ensures group { (basis : Basis) (into : ℕ) (members : List Member)
        → (ruling_of basis (ask.AddGroup into members) ≡ Granted) ↔ IsTrue (is_granted_on basis into WRITE_ACL) }
    ensures title { (basis : Basis) (object : ℕ) (title : List ℕ)
        → (ruling_of basis (ask.Retitle object title) ≡ Granted)
        ↔ IsTrue (is_granted_on basis object WRITE_ATTRIBUTES) }
    ensures content { (basis : Basis) (object : ℕ) (content : List ℕ)
        → (ruling_of basis (ask.Replace object content) ≡ Granted)
        ↔ IsTrue (is_granted_on basis object WRITE_DATA) }
    ensures owner { (basis : Basis) (object number : ℕ) (owner : List ℕ)
        → (ruling_of basis (ask.SetOwner object owner number) ≡ Granted)
        ↔ IsTrue (is_granted_on basis object WRITE_OWNER) }
    ensures members { (basis : Basis) (object : ℕ) (members : List Member)
        → (ruling_of basis (ask.SetMembers object members) ≡ Granted)
        ↔ IsTrue (is_granted_on basis object WRITE_DATA) }
{}

/// A law: where a picture and its home are there, it is deleted by a right to either of them, and moved by one of these
/// and the right to add it to the other album.
pub fn a_deletion_needs_one_of_two_rights()
    ensures deleted { (basis : Basis) (object : ℕ) (was : Picture) (home : Head)
        → basis.seen object ≡ value.Picture was
        → head_of (basis.seen (album was.home)) ≡ Some home
        → (ruling_of basis (ask.Delete object) ≡ Granted)
        ↔ IsTrue (is_granted_on basis object DELETE || is_granted_on basis (album was.home) DELETE_CHILD) }
    ensures moved { (basis : Basis) (object to : ℕ) (was : Picture) (home : Head)
        → basis.seen object ≡ value.Picture was
        → head_of (basis.seen (album was.home)) ≡ Some home
        → (ruling_of basis (ask.Move object to) ≡ Granted)
        ↔ IsTrue ((is_granted_on basis object DELETE || is_granted_on basis (album was.home) DELETE_CHILD)
        && is_granted_on basis to ADD_FILE) }
{}

/// A law: lists are set, and shared, exactly where WRITE_ACL is granted on each object, and WRITE_DATA on each group
/// whose members are set.
pub fn a_share_needs_each_right()
    ensures lists { (basis : Basis) (lists : List NewList)
        → (ruling_of basis (ask.SetLists lists) ≡ Granted)
        ↔ IsTrue (list_all (λ (new : NewList). is_granted_on basis new.object WRITE_ACL) lists) }
    ensures share { (basis : Basis) (lists : List NewList) (members : List NewMembership)
        → (ruling_of basis (ask.Share lists members) ≡ Granted)
        ↔ IsTrue (list_all (λ (new : NewList). is_granted_on basis new.object WRITE_ACL) lists
        && list_all (λ (new : NewMembership). is_granted_on basis new.object WRITE_DATA) members) }
{}

/// A law: by policy 3 whoever has on an object what its owner has reads its list, sets it, and makes groups for it,
/// whatever the list says and whatever groups there are. Root has that on each object that is there.
pub fn owners_are_never_locked_out()
    ensures entries { (basis : Basis) (object : ℕ)
        → basis.policy ≡ Three → is_owned_by basis.principal (basis.seen object) ≡ true
        → ruling_of basis (ask.GetList object) ≡ Granted }
    ensures lists { (basis : Basis) (lists : List NewList)
        → basis.policy ≡ Three
        → ((new : NewList) → Contains lists new → is_owned_by basis.principal (basis.seen new.object) ≡ true)
        → ruling_of basis (ask.SetLists lists) ≡ Granted }
    ensures group { (basis : Basis) (into : ℕ) (members : List Member)
        → basis.policy ≡ Three → is_owned_by basis.principal (basis.seen into) ≡ true
        → ruling_of basis (ask.AddGroup into members) ≡ Granted }
    ensures root { (basis : Basis) (object : ℕ) (head : Head) (user : List ℕ)
        → basis.principal ≡ Root user → head_of (basis.seen object) ≡ Some head
        → is_owned_by basis.principal (basis.seen object) ≡ true }
{}
