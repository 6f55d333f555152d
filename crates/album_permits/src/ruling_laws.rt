//! Laws of rulings.
ghost use Rattle.std.specs.Prelude.{◌≡◌, ℕ, List};
ghost use Rattle.album_eval.specs.declared.facts.Principal.{Principal};
ghost use Rattle.album_eval.specs.declared.policies.Policy.{Policy};
ghost use Rattle.album_reader.specs.Answers.{ReadVersion};
ghost use Rattle.album_views.specs.Views.{ViewState};
ghost use Rattle.album_views.specs.ReadSets.{looker_of};
ghost use Rattle.album_views.specs.declared.asks.Ask.{Ask};
ghost use Rattle.album_listing.specs.Agreement.{AgreeOn};
ghost use Rattle.album_listing.specs.Basis.{Basis, IsBasis};
ghost use Rattle.album_permits.specs.Effects.{effect_of, is_full_for};
ghost use Rattle.album_permits.specs.Findings.{ruling_of};
ghost use Rattle.album_permits.specs.Notes.{notes_of};
ghost use Rattle.album_permits.specs.Permits.{permit_on};
ghost use Rattle.album_permits.specs.Rulings.{finding_in, IsRuled};
ghost use Rattle.album_permits.specs.Serving.{IsServed};
ghost use Rattle.album_permits.specs.declared.rulings.Ruled.{Ruled};
ghost use Rattle.album_permits.specs.declared.serving.Served.{Served};

/// A law: a ruling looks at nothing that is not named. Where two snapshots agree on all that is named for the ask
/// by the one, the ruling and its notes are the same on both.
pub fn rulings_look_at_what_is_named()
    ensures ruling { (policy : Policy) (principal : Principal) (ask : Ask) (one other : List ReadVersion) (b c : Basis)
        → AgreeOn (looker_of policy principal) ask one other → IsBasis policy principal one b
        → IsBasis policy principal other c
        → ruling_of b ask ≡ ruling_of c ask }
    ensures notes { (policy : Policy) (principal : Principal) (ask : Ask) (one other : List ReadVersion) (b c : Basis)
        → AgreeOn (looker_of policy principal) ask one other → IsBasis policy principal one b
        → IsBasis policy principal other c
        → notes_of b ask ≡ notes_of c ask }
{}

/// A law: what a permit is spent on looks at nothing else either. On such snapshots the same is served, the same is
/// written, and an album that gets a child is full on both or on neither.
pub fn permits_are_spent_on_what_is_named()
    ensures effect { (policy : Policy) (principal : Principal) (ask : Ask) (one other : List ReadVersion) (stamp : ℕ)
        → AgreeOn (looker_of policy principal) ask one other
        → effect_of (permit_on policy principal ask one) stamp
        ≡ effect_of (permit_on policy principal ask other) stamp }
    ensures room { (policy : Policy) (principal : Principal) (ask : Ask) (one other : List ReadVersion) (stamp : ℕ)
        → AgreeOn (looker_of policy principal) ask one other
        → is_full_for (permit_on policy principal ask one) stamp
        ≡ is_full_for (permit_on policy principal ask other) stamp }
    ensures served { (policy : Policy) (principal : Principal) (ask : Ask) (one other : List ReadVersion)
        (served more : Served)
        → AgreeOn (looker_of policy principal) ask one other
        → IsServed (permit_on policy principal ask one) served
        → IsServed (permit_on policy principal ask other) more
        → served ≡ more }
{}

/// A law: a view has one ruling for a principal by a policy, with one list of notes. So what is granted is not
/// denied, and what is denied is not granted.
pub fn one_ruling()
    ensures ruling { (policy : Policy) (principal : Principal) (view : ViewState) (one other : Ruled)
        → IsRuled policy principal view one → IsRuled policy principal view other
        → finding_in one.ruling ≡ finding_in other.ruling }
    ensures notes { (policy : Policy) (principal : Principal) (view : ViewState) (one other : Ruled)
        → IsRuled policy principal view one → IsRuled policy principal view other
        → one.notes.items ≡ other.notes.items }
{}
