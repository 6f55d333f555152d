//! What an ask is served.
ghost use Rattle.std.specs.Prelude.{◌≡◌, ℕ, List, Some};
ghost use Rattle.album_lists.specs.declared.lists.Ace.{Ace};
ghost use Rattle.album_lists.specs.declared.whos.Member.{Member};
ghost use Rattle.album_items.specs.ItemIds.{list};
ghost use Rattle.album_items.specs.Values.{head_of};
ghost use Rattle.album_items.specs.declared.values.Head.{Head};
ghost use Rattle.album_items.specs.declared.values.Value.{Value};
ghost use Rattle.album_reader.specs.Snapshots.{version_read};
ghost use Rattle.album_views.specs.Seen.{seen};
ghost use Rattle.album_listing.specs.declared.rows.Row.{Row};
ghost use Rattle.album_permits.specs.Permits.{PermitState};
ghost use Rattle.album_permits.specs.Serving.{IsServed};
ghost use Rattle.album_permits.specs.declared.attributes.Attributes.{Attributes};
ghost use Rattle.album_permits.specs.declared.serving.Served.TheVariants as served;

/// A law: what is served has the stamp of the version that was read: of the picture, the group or the album, and of its
/// list where entries are served.
pub fn what_is_served_has_its_stamp()
    ensures picture { (permit : PermitState) (object stamp read : ℕ) (is : Value) (title content : List ℕ)
        → IsServed permit (served.Picture object stamp title content)
        → version_read permit.view.rows object ≡ Some (read, is) → stamp ≡ read }
    ensures group { (permit : PermitState) (object stamp read : ℕ) (is : Value) (members : List Member)
        → IsServed permit (served.Group object stamp members)
        → version_read permit.view.rows object ≡ Some (read, is) → stamp ≡ read }
    ensures listed { (permit : PermitState) (album stamp read : ℕ) (is : Value) (rows : List Row)
        → IsServed permit (served.Listed album stamp rows)
        → version_read permit.view.rows album ≡ Some (read, is) → stamp ≡ read }
    ensures head { (permit : PermitState) (object stamp read : ℕ) (is : Value) (attributes : Attributes)
        → IsServed permit (served.Head object stamp attributes)
        → version_read permit.view.rows object ≡ Some (read, is) → stamp ≡ read }
    ensures children { (permit : PermitState) (album stamp read : ℕ) (is : Value) (children : List ℕ)
        → IsServed permit (served.Children album stamp children)
        → version_read permit.view.rows album ≡ Some (read, is) → stamp ≡ read }
    ensures entries { (permit : PermitState) (object of stamp read : ℕ) (is : Value) (head : Head) (entries : List Ace)
        → IsServed permit (served.Entries object of stamp entries)
        → head_of (seen permit.view.rows object) ≡ Some head
        → version_read permit.view.rows (list head.list) ≡ Some (read, is) → stamp ≡ read }
    ensures entries_of { (permit : PermitState) (object of stamp : ℕ) (head : Head) (entries : List Ace)
        → IsServed permit (served.Entries object of stamp entries)
        → head_of (seen permit.view.rows object) ≡ Some head → of ≡ list head.list }
{}
