//! Laws of what can't be had without a right.
ghost use Rattle.std.specs.Prelude.{◌≡◌, ℕ, List, length, Some, IsTrue};
ghost use Rattle.album_lists.specs.declared.lists.Ace.{Ace};
ghost use Rattle.album_lists.specs.declared.whos.Member.{Member};
ghost use Rattle.album_items.specs.Values.{children_of, members_of};
ghost use Rattle.album_items.specs.declared.values.Value.{Value};
ghost use Rattle.album_views.specs.Seen.{seen};
ghost use Rattle.album_listing.specs.Masks.{READ_DATA, LIST_DIRECTORY, READ_ATTRIBUTES, READ_ACL};
ghost use Rattle.album_listing.specs.ViewLookups.{entries_named};
ghost use Rattle.album_listing.specs.Fields.{title_field, content_field};
ghost use Rattle.album_listing.specs.declared.rows.Row.{Row};
ghost use Rattle.album_permits.specs.Attributes.{attributes_of};
ghost use Rattle.album_permits.specs.Changes.{with_content, with_members, with_children};
ghost use Rattle.album_permits.specs.Permits.{PermitState, IsPermit};
ghost use Rattle.album_permits.specs.Rights.{is_granted_to, IsGrantedChange, IsRewritten};
ghost use Rattle.album_permits.specs.Serving.{IsServed};
ghost use Rattle.album_permits.specs.declared.attributes.Attributes.{Attributes};
ghost use Rattle.album_permits.specs.declared.serving.Served.TheVariants as served;

/// A law: nothing of an item is changed without the right to change it, whatever is asked.
pub fn what_changes_is_granted()
    ensures { (permit : PermitState) (stamp item : ℕ) (is : Value) → IsRewritten permit stamp item is
        → IsGrantedChange permit item (seen permit.view.rows item) is }
{}

/// A law: nothing is served without the right to read it, whatever is asked, and what is served of an object is what
/// is seen of it.
pub fn what_is_served_is_granted()
    ensures picture { (permit : PermitState) (object stamp : ℕ) (title content : List ℕ)
        → IsPermit permit → IsServed permit (served.Picture object stamp title content)
        → IsTrue (is_granted_to permit object READ_DATA)
        × (title_field (seen permit.view.rows object) ≡ Some title)
        × (content_field (seen permit.view.rows object) ≡ Some content) }
    ensures group { (permit : PermitState) (object stamp : ℕ) (members : List Member)
        → IsPermit permit → IsServed permit (served.Group object stamp members)
        → IsTrue (is_granted_to permit object READ_DATA)
        × (members_of (seen permit.view.rows object) ≡ members) }
    ensures listed { (permit : PermitState) (album stamp : ℕ) (rows : List Row)
        → IsPermit permit → IsServed permit (served.Listed album stamp rows)
        → IsTrue (is_granted_to permit album LIST_DIRECTORY) }
    ensures entries { (permit : PermitState) (object of stamp : ℕ) (entries : List Ace)
        → IsPermit permit → IsServed permit (served.Entries object of stamp entries)
        → IsTrue (is_granted_to permit object READ_ACL)
        × (entries_named (seen permit.view.rows) object ≡ entries) }
    ensures head { (permit : PermitState) (object stamp : ℕ) (attributes : Attributes)
        → IsPermit permit → IsServed permit (served.Head object stamp attributes)
        → IsTrue (is_granted_to permit object READ_ATTRIBUTES)
        × (attributes_of (seen permit.view.rows object) ≡ attributes) }
    ensures children { (permit : PermitState) (album stamp : ℕ) (children : List ℕ)
        → IsPermit permit → IsServed permit (served.Children album stamp children)
        → IsTrue (is_granted_to permit album LIST_DIRECTORY)
        × (children_of (seen permit.view.rows album) ≡ children) }
{}

/// A law: what an object is by its attributes stays, whatever it holds. Another content changes nothing of it, nor do
/// as many other children or members.
pub fn heads_show_no_contents()
    ensures content { (value : Value) (content : List ℕ)
        → attributes_of (with_content content value) ≡ attributes_of value }
    ensures children { (value : Value) (children : List ℕ) → length children ≡ length (children_of value)
        → attributes_of (with_children children value) ≡ attributes_of value }
    ensures members { (value : Value) (members : List Member) → length members ≡ length (members_of value)
        → attributes_of (with_members members value) ≡ attributes_of value }
{}
