//! Who may sweep, trim, dump and ask what is pending over a connection.
ghost use Rattle.std.specs.Prelude.{◌≡◌, ◌≢◌, ◌⊎◌, ◌↔◌, ℕ, [], Vec, map, true, false, Contains, Some, Ok, Err, IfOk, IfErr};
ghost use Rattle.std.specs.List.{list_any};
ghost use Rattle.std.specs.declared.alloc.Global.{Global};
ghost use Rattle.album_stamps.specs.declared.refusals.Refusal.TheVariants.{NotAdmin};
ghost use Rattle.album_eval.specs.Matching.{principal_of};
ghost use Rattle.album_eval.specs.declared.facts.Principal.{Principal};
ghost use Rattle.album_wire.specs.declared.talk_line.TalkLine.{TalkLine};
ghost use Rattle.album_views.specs.declared.asks.Ask.{Ask};
ghost use Rattle.album_talk.specs.Admins.{AreThese, named_as, names_principal, names_user, is_admin, permitted};

use album_eval::Principal;
use album_lists::Name;
use album_stamps::Refusal;
use album_wire::TalkLine;
use std::alloc::Global;

/// Who may send the lines that are no asks.
#[derive(Debug, Drop)]
pub enum Admins {
    /// Whoever connects.
    Anyone,
    /// These principals.
    These(Vec<Principal>),
}

impl Admins {
    /// Those whom the words name; where there is no word, whoever connects.
    ///
    /// # Errors
    ///
    /// `BadWho`, where a word is no principal, or `OutOfMemory`: the first that comes.
    pub fn named(alloc: Global, words: &[&str]) -> Result<Admins, Refusal>
        ensures nobody { IfOk result (λ admins. words.now ≡ [] → admins ≡ Admins.Anyone) }
        ensures named { IfOk result (λ admins. words.now ≢ []
            → AreThese (map (λ word. principal_of word.now) words.now) admins) }
        ensures refused { IfErr result (λ e. (e ≡ Refusal.BadWho) ⊎ (e ≡ Refusal.OutOfMemory)) }
    {
        if words.is_empty() {
            return Ok(Admins::Anyone);
        }
        let named = principals(alloc, words)?;
        Ok(Admins::These(named))
    }

    /// The line, where who talks may send it.
    ///
    /// # Errors
    ///
    /// `NotAdmin`, where it is no ask, and who talks is none of these.
    pub(crate) fn permit(&self, who: &Principal, line: TalkLine) -> Result<TalkLine, Refusal>
        ensures { result ≡ permitted self.now who.now line }
    {
        match line {
            TalkLine::Ask(ask) => Ok(TalkLine::Ask(ask)),
            TalkLine::Pending(part) if self.include(who) => Ok(TalkLine::Pending(part)),
            TalkLine::Sweep(part, stamp) if self.include(who) => Ok(TalkLine::Sweep(part, stamp)),
            TalkLine::Dump if self.include(who) => Ok(TalkLine::Dump),
            TalkLine::Trim(part, item) if self.include(who) => Ok(TalkLine::Trim(part, item)),
            TalkLine::Pending(_) | TalkLine::Sweep(..) | TalkLine::Dump | TalkLine::Trim(..) => {
                Err(Refusal::NotAdmin)
            }
        }
    }

    /// Whether who talks is one of those who may.
    fn include(&self, who: &Principal) -> bool
        ensures { result ≡ is_admin self.now who.now }
    {
        match self {
            Admins::Anyone => true,
            Admins::These(named) => has_principal(named, who),
        }
    }
}

/// The principals that the words are.
fn principals(alloc: Global, words: &[&str]) -> Result<Vec<Principal>, Refusal>
    ensures read { IfOk result (λ named. map (λ word. principal_of word.now) words.now ≡ map Some named.items) }
    ensures refused { IfErr result (λ e. (e ≡ Refusal.BadWho) ⊎ (e ≡ Refusal.OutOfMemory)) }
{
    let mut named = Vec::new(alloc);
    for word in words {
        named.push(Principal::read(word)?)?;
    }
    Ok(named)
}

/// Whether the principal is one of these.
fn has_principal(named: &Vec<Principal>, who: &Principal) -> bool
    ensures { result ≡ list_any (names_principal who.now) named.now.items }
{
    named
        .as_slice()
        .iter()
        .any(|admin| names_principal(who, admin))
}

fn names_principal(who: &Principal, admin: &Principal) -> bool
    ensures { result ≡ names_principal who.now admin.now }
{
    match who {
        Principal::Anonymous => matches!(admin, Principal::Anonymous),
        Principal::User(name) | Principal::Root(name) => names_user(name, admin),
    }
}

/// Whether this one names the user. No word names a root, so a root is named as the user that it is.
fn names_user(name: &Name, admin: &Principal) -> bool
    ensures { result ≡ names_user name.now admin.now }
{
    match admin {
        Principal::Anonymous | Principal::Root(_) => false,
        Principal::User(other) => name.as_str() == other.as_str(),
    }
}

/// A law: whoever connects may ask. Only those who are named may send the other lines; where nobody is named, everyone.
pub fn only_admins_are_heard()
    ensures asks { (admins : Admins) (who : Principal) (ask : Ask)
        → permitted admins who (TalkLine.Ask ask) ≡ Ok (TalkLine.Ask ask) }
    ensures anyone { (who : Principal) (line : TalkLine) → permitted Admins.Anyone who line ≡ Ok line }
    ensures named { (admins : Admins) (who : Principal) (line : TalkLine)
        → is_admin admins who ≡ true → permitted admins who line ≡ Ok line }
    ensures these { (named : Vec Principal Global) (who : Principal)
        → (is_admin (Admins.These named) who ≡ true) ↔ Contains named.items (named_as who) }
    ensures pending { (admins : Admins) (who : Principal) (part : ℕ)
        → is_admin admins who ≡ false → permitted admins who (TalkLine.Pending part) ≡ Err NotAdmin }
    ensures sweeps { (admins : Admins) (who : Principal) (part stamp : ℕ)
        → is_admin admins who ≡ false → permitted admins who (TalkLine.Sweep part stamp) ≡ Err NotAdmin }
    ensures dumps { (admins : Admins) (who : Principal)
        → is_admin admins who ≡ false → permitted admins who TalkLine.Dump ≡ Err NotAdmin }
    ensures trims { (admins : Admins) (who : Principal) (part item : ℕ)
        → is_admin admins who ≡ false → permitted admins who (TalkLine.Trim part item) ≡ Err NotAdmin }
{}
