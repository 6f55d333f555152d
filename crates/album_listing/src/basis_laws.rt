//! The basis of a ruling can be computed.
ghost use Rattle.std.specs.Prelude.{List};
ghost use Rattle.album_eval.specs.declared.facts.Principal.{Principal};
ghost use Rattle.album_eval.specs.declared.policies.Policy.{Policy};
ghost use Rattle.album_reader.specs.Answers.{ReadVersion};
ghost use Rattle.album_listing.specs.Basis.{IsBasis};
ghost use Rattle.album_listing.specs.GroupsFound.{basis_on};

/// A law: a ruling by a policy, for a principal, on what was read has a basis, which can be computed. Its groups are
/// exactly those that the principal is in.
pub fn a_ruling_has_a_basis()
    ensures { (policy : Policy) (principal : Principal) (rows : List ReadVersion)
        → IsBasis policy principal rows (basis_on policy principal rows) }
{}
