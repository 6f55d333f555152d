//! What a service starts with, before any type names it.
ghost use Rattle.std.specs.Prelude.{◌≡◌, ◌≢◌, ◌<◌, true, false, Some, IfOk, IfErr, OnOk};
ghost use Rattle.album_eval.specs.Policies.{policy_of};
ghost use Rattle.album_items.specs.Openings.{is_opening};
ghost use Rattle.album_passes.specs.Desk.{terms_of};

use album_audit::Blanks;
use album_board::NewList;
use album_eval::Policy;
use album_items::Opening;
use album_partition::Partition;
use album_passes::{Desk, Owner, Pass};
use album_sessions::MAX_HINTS;
use album_stamps::Refusal;
use std::alloc::Global;
use std::marker::Model;

/// A desk, the partitions with the owners of their histories, the first pass, the policy, the list of a board, and the
/// ledgers of an audit book. Contracts see the desk, the policy, and the names of the list and of the ledgers.
#[derive(Drop)]
pub struct Opened {
    pub(crate) desk: Desk,
    pub(crate) parts: u16,
    /// Whether the partitions are checked.
    pub(crate) checked: bool,
    /// The counter above which sessions draw their stamps.
    pub(crate) first: u64,
    pub(crate) owners: Vec<Owner>,
    pub(crate) partitions: Vec<Partition>,
    pub(crate) pass: Pass,
    pub(crate) policy: Policy,
    pub(crate) list: NewList,
    pub(crate) blanks: Blanks,
    /// How many hints the service may keep.
    pub(crate) hints: usize,
    /// Whether a session may give itself the replies that it knows.
    pub(crate) repeats: bool,
}

impl Model for Opened {
    ghost use Rattle.album_threads.specs.Opened.{OpenedState, IsOpened};

    ghost Value = { OpenedState };

    ghost view = { λ o. record { desk = o.desk; policy = o.policy; list = o.list; books = o.blanks } };

    ghost invariant = { λ o. IsOpened o.desk o.parts o.checked o.first o.owners.items o.partitions.items o.pass };
}

impl Opened {
    /// Opens a desk for so many sessions, with the partitions of the opening.
    ///
    /// # Errors
    ///
    /// `BadOpening` exactly where the opening fails its check, and else `OutOfMemory`.
    #[tactic(auto, using(album_items::proofs::BaseLemmas::opening_is_base))]
    pub fn new(alloc: Global, opening: &Opening, sessions: u16) -> Result<Opened, Refusal>
        requires sessions { 0 < sessions }
        ensures terms { IfOk result (λ opened. opened.desk.terms ≡ terms_of opening.now sessions) }
        ensures policy { IfOk result (λ opened. policy_of opening.now.policy ≡ Some opened.policy) }
        ensures taken { OnOk result (is_opening opening.now ≡ true) }
        ensures refused { IfErr result (λ e. e ≢ Refusal.OutOfMemory → e ≡ Refusal.BadOpening) }
        ensures bad { IfErr result (λ e. e ≡ Refusal.BadOpening → is_opening opening.now ≡ false) }
    {
        opening.check()?;
        let policy = Policy::of(opening.policy).unwrap();
        let partitions = Partition::all_of(alloc, opening)?;
        let (desk, owners, pass) = Desk::open(alloc, opening, sessions)?;
        Ok(Opened {
            desk,
            parts: opening.parts as u16,
            checked: opening.checked,
            first: opening.first,
            owners,
            partitions,
            pass,
            policy,
            list: NewList::new(),
            blanks: Blanks::new(),
            hints: MAX_HINTS,
            repeats: true,
        })
    }

    /// The same for a service whose sessions send what a world's clients send: each ask begins with a read of its
    /// objects, and each read asks the partitions in both of its rounds.
    pub fn plain(self) -> Opened
        ensures { result ≡ self }
    {
        Opened {
            hints: 0,
            repeats: false,
            ..self
        }
    }
}
