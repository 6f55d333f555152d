//! What bits are called.
ghost use Rattle.std.specs.Prelude.{true, false, codes, Contains};
ghost use Rattle.album_access.specs.Bits.{mask_table, flag_table};
ghost use Rattle.album_eval.specs.Audit.{outcome_flag};
ghost use Rattle.album_listing.specs.Masks.{READ_DATA, WRITE_DATA, ADD_SUBDIRECTORY, DELETE_CHILD, READ_ATTRIBUTES, WRITE_ATTRIBUTES, DELETE, READ_ACL, WRITE_ACL, WRITE_OWNER};

/// A law: the bit of a name is the one that is looked at where the name's right is wanted (RFC 7530, section
/// 6.2.1.3.1), or where the name's flag is heeded (section 6.2.1.4.1).
pub fn bits_have_their_names()
    ensures read { Contains mask_table (codes "READ_DATA", READ_DATA.0) }
    ensures write { Contains mask_table (codes "WRITE_DATA", WRITE_DATA.0) }
    ensures append { Contains mask_table (codes "APPEND_DATA", ADD_SUBDIRECTORY.0) }
    ensures delete_child { Contains mask_table (codes "DELETE_CHILD", DELETE_CHILD.0) }
    ensures read_attributes { Contains mask_table (codes "READ_ATTRIBUTES", READ_ATTRIBUTES.0) }
    ensures write_attributes { Contains mask_table (codes "WRITE_ATTRIBUTES", WRITE_ATTRIBUTES.0) }
    ensures delete { Contains mask_table (codes "DELETE", DELETE.0) }
    ensures read_acl { Contains mask_table (codes "READ_ACL", READ_ACL.0) }
    ensures write_acl { Contains mask_table (codes "WRITE_ACL", WRITE_ACL.0) }
    ensures write_owner { Contains mask_table (codes "WRITE_OWNER", WRITE_OWNER.0) }
    ensures file_inherit { Contains flag_table (codes "FILE_INHERIT", 1) }
    ensures directory_inherit { Contains flag_table (codes "DIRECTORY_INHERIT", 2) }
    ensures no_propagate_inherit { Contains flag_table (codes "NO_PROPAGATE_INHERIT", 4) }
    ensures inherit_only { Contains flag_table (codes "INHERIT_ONLY", 8) }
    ensures successful { Contains flag_table (codes "SUCCESSFUL_ACCESS", outcome_flag true) }
    ensures failed { Contains flag_table (codes "FAILED_ACCESS", outcome_flag false) }
    ensures group { Contains flag_table (codes "IDENTIFIER_GROUP", 64) }
{}
