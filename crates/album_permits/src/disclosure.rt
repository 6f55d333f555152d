//! Laws of what rulings and answers do not disclose.
ghost use Rattle.std.specs.Prelude.{◌≡◌, List};
ghost use Rattle.album_eval.specs.declared.facts.Principal.{Principal};
ghost use Rattle.album_eval.specs.declared.policies.Policy.{Policy};
ghost use Rattle.album_reader.specs.Answers.{ReadVersion};
ghost use Rattle.album_views.specs.ReadSets.{looker_of};
ghost use Rattle.album_views.specs.declared.asks.Ask.{Ask};
ghost use Rattle.album_listing.specs.Basis.{Basis, IsBasis};
ghost use Rattle.album_listing.specs.Disclosure.{AreRuledAlike, AreAlikeFor};
ghost use Rattle.album_permits.specs.Findings.{ruling_of};
ghost use Rattle.album_permits.specs.Notes.{notes_of};
ghost use Rattle.album_permits.specs.Permits.{permit_on, IsPermit};
ghost use Rattle.album_permits.specs.Serving.{IsServed};
ghost use Rattle.album_permits.specs.declared.serving.Served.{Served};

/// A law: titles, contents, children and stamps decide nothing, nor does what is not named. On two snapshots that are
/// alike but for these, the ruling and its notes are the same.
pub fn secrets_decide_nothing()
    ensures ruling { (policy : Policy) (principal : Principal) (ask : Ask) (one other : List ReadVersion) (b c : Basis)
        → AreRuledAlike (looker_of policy principal) ask one other → IsBasis policy principal one b
        → IsBasis policy principal other c
        → ruling_of b ask ≡ ruling_of c ask }
    ensures notes { (policy : Policy) (principal : Principal) (ask : Ask) (one other : List ReadVersion) (b c : Basis)
        → AreRuledAlike (looker_of policy principal) ask one other → IsBasis policy principal one b
        → IsBasis policy principal other c
        → notes_of b ask ≡ notes_of c ask }
{}

/// A law: an answer discloses nothing that the principal may not read. On two snapshots that are alike for a principal
/// it is granted the same, and is served the same.
pub fn answers_disclose_nothing()
    ensures granted { (policy : Policy) (principal : Principal) (ask : Ask) (one other : List ReadVersion)
        → AreAlikeFor policy principal ask one other
        → IsPermit (permit_on policy principal ask one) → IsPermit (permit_on policy principal ask other) }
    ensures served { (policy : Policy) (principal : Principal) (ask : Ask) (one other : List ReadVersion)
        (served more : Served)
        → AreAlikeFor policy principal ask one other → IsPermit (permit_on policy principal ask one)
        → IsServed (permit_on policy principal ask one) served
        → IsServed (permit_on policy principal ask other) more
        → served ≡ more }
{}
