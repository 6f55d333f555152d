//! What holds of the cuts of a service that is checked.
ghost use Rattle.std.specs.Prelude.{◌≡◌, ◌≢◌, ◌⊎◌, ◌<◌, ◌≤◌, ℕ, List, [], ◌∷◌, true, Some, Contains};
ghost use Rattle.std.specs.List.{list_all};
ghost use Rattle.album_stamps.specs.Stamps.{client_number, counter_of};
ghost use Rattle.album_eval.specs.declared.facts.Principal.{Principal};
ghost use Rattle.album_eval.specs.declared.policies.Policy.{Policy};
ghost use Rattle.album_lists.specs.declared.lists.Ace.{Ace};
ghost use Rattle.album_lists.specs.declared.whos.Member.{Member};
ghost use Rattle.album_items.specs.ItemIds.{album, group, kind_of, list};
ghost use Rattle.album_items.specs.Openings.{has_own_value, is_base_opening};
ghost use Rattle.album_items.specs.Values.{children_of, head_of, home_of, list_of, members_of};
ghost use Rattle.album_items.specs.declared.openings.Opening.{Opening};
ghost use Rattle.album_items.specs.declared.values.Head.{Head};
ghost use Rattle.album_items.specs.declared.values.Value.{Value};
ghost use Rattle.album_items.specs.declared.values.Value.TheVariants as value;
ghost use Rattle.album_partition.specs.Marks.{value_in};
ghost use Rattle.album_reader.specs.Answers.{ReadVersion};
ghost use Rattle.album_passes.specs.Cuts.{Cut, Announced, announced_for, IsSound, Extends};
ghost use Rattle.album_views.specs.Seen.{seen};
ghost use Rattle.album_views.specs.declared.asks.Ask.{Ask};
ghost use Rattle.album_views.specs.declared.asks.Ask.TheVariants as request;
ghost use Rattle.album_views.specs.declared.asks.NewList.{NewList};
ghost use Rattle.album_listing.specs.Fields.{content_field, title_field};
ghost use Rattle.album_permits.specs.Effects.{effect_of};
ghost use Rattle.album_permits.specs.Permits.{PermitState};
ghost use Rattle.album_grounds.specs.Granted.{AreGranted};
ghost use Rattle.album_grounds.specs.Grounds.{IsSeen, IsKept};
ghost use Rattle.album_world.specs.Staying.{HandsOver, SetsContent, SetsList, SetsMembers, SetsTitle, TakesOut};
ghost use Rattle.album_lasting.specs.Staying.{AllGranted, IsAboveItsOpening, IsOfCheckedService};
ghost use Rattle.album_lasting.specs.Staying.{IsVersion, IsLaterVersion, IsKeptWhole};
ghost use Rattle.album_lasting.specs.Staying.{IsMadeFrom, IsUndoneBetween, IsAcknowledged, Adds, IsOwnedBy};

/// A law: what the sessions of a service know is what the laws below ask of a cut. All that is announced was granted,
/// where each stamp is of one of these clients, and their sessions say so, by `Session::has_granted_writes`. What one
/// session says stays so as the cut grows by what others announce. A cut is above its opening where each stamp has a
/// counter above the opening's first. So it is in a service: a session's clock begins there, by `Service::session`, and
/// each stamp that `Session::ask` draws is above its clock.
pub fn sessions_know_a_service()
    ensures granted { (policy : Policy) (cut : Cut) (clients : List ℕ)
        → ((client : ℕ) → Contains clients client → AreGranted policy client cut)
        → ((stamp : ℕ) (announced : Announced) → announced_for cut stamp ≡ Some announced
        → Contains clients (client_number stamp))
        → AllGranted policy cut }
    ensures still { (policy : Policy) (client : ℕ) (old new : Cut) → Extends old new
        → ((stamp : ℕ) → client_number stamp ≡ client → announced_for new stamp ≡ announced_for old stamp)
        → AreGranted policy client old → AreGranted policy client new }
    ensures above { (opening : Opening) (cut : Cut) → is_base_opening opening ≡ true → cut.opening ≡ opening.items
        → ((stamp : ℕ) (announced : Announced) → announced_for cut stamp ≡ Some announced
        → opening.first < counter_of stamp)
        → IsAboveItsOpening cut }
{}

/// A law: what is answered is a version. Once a write is answered Committed, each item that it writes has that version,
/// in the cut of the answer and in each that extends it. What is read is a version too, or the opening's value. A read
/// that begins after the answer shows that version or a later one, and so does a read that begins after another.
pub fn what_was_answered_is_a_version()
    ensures acknowledged { (old new : Cut) (permit : PermitState) (stamp : ℕ) → IsSound new → 1 ≤ new.parts
        → Extends old new → IsKept old permit stamp → IsKeptWhole new permit stamp }
    ensures read { (begun old new : Cut) (rows : List ReadVersion) (row : ReadVersion) → IsSound new
        → IsAboveItsOpening new → Extends old new → IsSeen begun old rows → Contains rows row
        → IsVersion new row.item row.stamp row.value }
    ensures read_since { (answered begun now : Cut) (permit : PermitState) (stamp : ℕ) (rows : List ReadVersion)
        (row : ReadVersion) (was : Value) → IsSound answered → IsSound now → IsAboveItsOpening now
        → 1 ≤ answered.parts → Extends answered begun → Extends begun now → IsKept answered permit stamp
        → value_in (effect_of permit stamp) row.item ≡ Some was → IsSeen begun now rows → Contains rows row
        → IsLaterVersion now row.item stamp row.stamp was row.value }
    ensures read_again { (begun old later new : Cut) (first second : List ReadVersion) (one other : ReadVersion)
        → IsSound old → IsSound new → IsAboveItsOpening new → Extends old later → Extends later new
        → IsSeen begun old first → IsSeen later new second → Contains first one → Contains second other
        → other.item ≡ one.item → IsLaterVersion new one.item one.stamp other.stamp one.value other.value }
{}

/// A law: each later version of an item is made from an earlier one, in a service that is checked. One granted write
/// after another has made it, each on a view that shows the one before.
pub fn later_versions_are_made_from_earlier_ones()
    ensures { (policy : Policy) (cut : Cut) (item first last : ℕ) (was is : Value) → IsOfCheckedService policy cut
        → IsLaterVersion cut item first last was is → IsMadeFrom policy cut item first was last is }
{}

/// A law: nothing is undone unasked in a service that is checked. What one version of an item has, each later one has
/// too, or a request in between was granted that is asked to change it. An album keeps a child until a request deletes
/// or moves it, and a picture its home. An object, which is no list, keeps its title, its content and its head, with
/// the owner, the head group and the list, until it is deleted or these are set. A list keeps its entries, and a group
/// its members, until they are set. What is deleted stays so.
pub fn nothing_is_undone_unasked()
    ensures children { (policy : Policy) (cut : Cut) (number child first last : ℕ) (was is : Value)
        → IsOfCheckedService policy cut
        → IsLaterVersion cut (album number) first last was is
        → Contains (children_of was) child
        → Contains (children_of is) child
        ⊎ IsUndoneBetween policy cut (album number) first last (λ permit. TakesOut child permit.view.ask) }
    ensures titles { (policy : Policy) (cut : Cut) (object first last : ℕ) (was is : Value) (title : List ℕ)
        → IsOfCheckedService policy cut
        → kind_of object ≢ 2
        → IsLaterVersion cut object first last was is
        → title_field was ≡ Some title
        → (title_field is ≡ Some title)
        ⊎ IsUndoneBetween policy cut object first last (λ permit. SetsTitle object permit.view.ask) }
    ensures contents { (policy : Policy) (cut : Cut) (object first last : ℕ) (was is : Value) (content : List ℕ)
        → IsOfCheckedService policy cut
        → kind_of object ≢ 2
        → IsLaterVersion cut object first last was is
        → content_field was ≡ Some content
        → (content_field is ≡ Some content)
        ⊎ IsUndoneBetween policy cut object first last (λ permit. SetsContent object permit.view.ask) }
    ensures homes { (policy : Policy) (cut : Cut) (object first last : ℕ) (was is : Value) (home : ℕ)
        → IsOfCheckedService policy cut
        → kind_of object ≢ 2
        → IsLaterVersion cut object first last was is
        → home_of was ≡ home ∷ []
        → (home_of is ≡ home ∷ [])
        ⊎ IsUndoneBetween policy cut object first last (λ permit. TakesOut object permit.view.ask) }
    ensures heads { (policy : Policy) (cut : Cut) (object first last : ℕ) (was is : Value) (head : Head)
        → IsOfCheckedService policy cut
        → kind_of object ≢ 2
        → IsLaterVersion cut object first last was is
        → head_of was ≡ Some head
        → (head_of is ≡ Some head)
        ⊎ IsUndoneBetween policy cut object first last (λ permit. HandsOver object permit.view.ask) }
    ensures lists { (policy : Policy) (cut : Cut) (number first last : ℕ) (was is : Value) (entries : List Ace)
        → IsOfCheckedService policy cut
        → IsLaterVersion cut (list number) first last was is
        → was ≡ value.List entries
        → (is ≡ value.List entries)
        ⊎ IsUndoneBetween policy cut (list number) first last
        (λ permit. SetsList (seen permit.view.rows) (list number) permit.view.ask) }
    ensures members { (policy : Policy) (cut : Cut) (number first last : ℕ) (was is : Value)
        → IsOfCheckedService policy cut
        → IsLaterVersion cut (group number) first last was is
        → was ≢ value.Missing
        → (members_of is ≡ members_of was)
        ⊎ IsUndoneBetween policy cut (group number) first last
        (λ permit. SetsMembers (group number) permit.view.ask) }
    ensures deleted { (policy : Policy) (cut : Cut) (object first last : ℕ) (was is : Value)
        → IsOfCheckedService policy cut
        → kind_of object ≢ 2
        → first ≢ 0
        → IsLaterVersion cut object first last was is
        → was ≡ value.Missing
        → is ≡ value.Missing }
{}

/// A law: an acknowledged addition stays in its album's children until a request takes it out, in a service that is
/// checked and whose opening gives each item a value of its kind. So it is of the picture or album that a request made,
/// and of the picture that one moved there.
pub fn acknowledged_additions_stay()
    ensures { (policy : Policy) (begun answered cut : Cut) (principal : Principal) (ask : Ask)
        (stamp into child last : ℕ) (is : Value)
        → IsOfCheckedService policy cut
        → 1 ≤ cut.parts
        → list_all has_own_value cut.opening ≡ true
        → Extends answered cut
        → IsAcknowledged policy begun answered principal ask stamp
        → Adds stamp ask into child
        → IsVersion cut into last is
        → stamp ≤ last
        → Contains (children_of is) child
        ⊎ IsUndoneBetween policy cut into stamp last (λ permit. TakesOut child permit.view.ask) }
{}

/// A law: what an acknowledged request sets stays, in a service that is checked. A deletion is undone by no request. An
/// owner with a head group stays until a request sets one or deletes the object. The members of a group stay until a
/// request sets them, where the opening gives each item a value of its kind; so do those of a group that is made. A
/// list that was set alone, of an object as the request's view names it, stays until a request sets it or deletes its
/// object.
pub fn acknowledged_settings_stay()
    ensures deletion { (policy : Policy) (begun answered cut : Cut) (principal : Principal)
        (stamp object last : ℕ) (is : Value)
        → IsOfCheckedService policy cut
        → 1 ≤ cut.parts
        → Extends answered cut
        → IsAcknowledged policy begun answered principal (request.Delete object) stamp
        → IsVersion cut object last is
        → stamp ≤ last
        → is ≡ value.Missing }
    ensures owner { (policy : Policy) (begun answered cut : Cut) (principal : Principal)
        (stamp object group last : ℕ) (owner : List ℕ) (is : Value)
        → IsOfCheckedService policy cut
        → 1 ≤ cut.parts
        → Extends answered cut
        → IsAcknowledged policy begun answered principal (request.SetOwner object owner group) stamp
        → IsVersion cut object last is
        → stamp ≤ last
        → IsOwnedBy owner group is
        ⊎ IsUndoneBetween policy cut object stamp last (λ permit. HandsOver object permit.view.ask) }
    ensures members { (policy : Policy) (begun answered cut : Cut) (principal : Principal)
        (stamp group last : ℕ) (members : List Member) (is : Value)
        → IsOfCheckedService policy cut
        → 1 ≤ cut.parts
        → list_all has_own_value cut.opening ≡ true
        → Extends answered cut
        → IsAcknowledged policy begun answered principal (request.SetMembers group members) stamp
        → IsVersion cut group last is
        → stamp ≤ last
        → (members_of is ≡ members)
        ⊎ IsUndoneBetween policy cut group stamp last (λ permit. SetsMembers group permit.view.ask) }
    ensures group { (policy : Policy) (begun answered cut : Cut) (principal : Principal)
        (stamp into last : ℕ) (members : List Member) (is : Value)
        → IsOfCheckedService policy cut
        → 1 ≤ cut.parts
        → Extends answered cut
        → IsAcknowledged policy begun answered principal (request.AddGroup into members) stamp
        → IsVersion cut (group stamp) last is
        → stamp ≤ last
        → (members_of is ≡ members)
        ⊎ IsUndoneBetween policy cut (group stamp) stamp last
        (λ permit. SetsMembers (group stamp) permit.view.ask) }
    ensures list { (policy : Policy) (begun answered cut : Cut) (principal : Principal)
        (stamp item last : ℕ) (new : NewList) (is : Value)
        → IsOfCheckedService policy cut
        → 1 ≤ cut.parts
        → Extends answered cut
        → (acknowledged : IsAcknowledged policy begun answered principal (request.SetLists (new ∷ [])) stamp)
        → Contains (list_of (seen acknowledged.rows new.object)) item
        → IsVersion cut item last is
        → stamp ≤ last
        → (is ≡ value.List new.list)
        ⊎ IsUndoneBetween policy cut item stamp last (λ permit. SetsList (seen permit.view.rows) item permit.view.ask) }
{}
