//! The transactions of a script, by their names.
ghost use Rattle.std.specs.Prelude.{◌≡◌, [], MatchResult, OnOk, OnErr, Ok, is_some};
ghost use Rattle.std.specs.Option.{option_copied, option_copied_mut, option_map};
ghost use Rattle.std.specs.Borrow.{sem};
ghost use Rattle.mvcc_key.specs.views.Seen.{time_of};
ghost use Rattle.txn_state.specs.views.Seen.{actor_of};
ghost use Rattle.intent_resolve.specs.views.Seen.{update_of};
ghost use Rattle.script_line.specs.views.SeenLine.{status_of, who_of};
ghost use Rattle.script_run.specs.Named.{drop_name, keep, look_up};
ghost use Rattle.script_run.specs.Output.{actor, update_named};
ghost use Rattle.script_run.specs.views.Lending.{LendsNamed};
ghost use Rattle.script_run.specs.views.Told.{Tells, told_by};

use crate::stop::CommandStop;
use crate::update::update_by;
use indexmap::IndexMap;
use intent_resolve::Update;
use mvcc_key::{OutOfMemory, Timestamp};
use script_line::{Status, Who};
use std::alloc::Global;
use std::marker::Model;
use txn_state::{Actor, Txn};

/// The transactions of a script, by their names. Contracts see them in the order in which the names came.
///
/// | call | names |
/// |---|---|
/// | `keep` a | a |
/// | `keep` b | a, b |
/// | `keep` a | a, b: the transaction of `a` is the new one |
/// | `remove` a | b |
/// | `keep` a | b, a |
#[derive(Drop)]
pub struct Txns {
    kept: IndexMap<String, Txn>,
}

impl Model for Txns {
    ghost use Rattle.std.specs.Prelude.{List, map, string_bytes};
    ghost use Rattle.txn_state.specs.Transaction.{Txn as Transaction};
    ghost use Rattle.script_run.specs.Named.{Named};

    ghost Value = { List (Named Transaction) };

    ghost view = { λ t. map (λ e. record { name = string_bytes e.0; item = e.1 }) t.kept.entries };
}

impl Txns {
    /// No transactions. This takes no memory.
    pub fn new(alloc: Global) -> Txns
        ensures { result ≡ [] }
    {
        Txns {
            kept: IndexMap::new(alloc),
        }
    }

    /// The transaction of the name.
    pub fn find(&self, name: &str) -> Option<&Txn>
        ensures { option_copied result ≡ look_up name.now self.now }
    {
        self.kept.get(name)
    }

    /// The transaction of the name, to change where it stands.
    pub fn find_mut(&mut self, name: &str) -> Option<&mut Txn>
        ensures* writes_back { sem 𝓛 (LendsNamed self.entry name.now result) }
        ensures value { option_copied_mut result ≡ look_up name.now self.old }
    {
        self.kept.get_mut(name)
    }

    /// Keeps a transaction under the name, in the place of one that stands there. Where memory is wanting the table stays as it was.
    pub fn keep(&mut self, alloc: Global, name: &str, txn: Txn) -> Result<(), OutOfMemory>
        ensures ok { OnOk result (self.new ≡ keep name.now txn self.old) }
        ensures err { OnErr result (self.new ≡ self.old) }
    {
        let name = String::from_str(alloc, name)?;
        self.kept.insert(name, txn)?;
        Ok(())
    }

    /// Removes the transaction of the name, and answers whether there was one.
    pub fn remove(&mut self, name: &str) -> bool
        ensures value { result ≡ is_some (look_up name.now self.old) }
        ensures without { self.new ≡ drop_name name.now self.old }
    {
        self.kept.shift_remove(name).is_some()
    }

    /// What a line says of the transaction of the name: its status, and a timestamp, in place of which its write timestamp may stand.
    /// [`CommandStop::NoTxn`] comes exactly where the name stands for no transaction.
    pub fn update(
        &self,
        alloc: Global,
        name: &str,
        status: Status,
        ts: Option<Timestamp>,
    ) -> Result<Update, CommandStop>
        ensures { MatchResult result (λ u. update_named self.now name.now (status_of status) (option_map time_of ts) ≡ Ok (update_of u))
            (λ stop. Tells (told_by stop) (update_named self.now name.now (status_of status) (option_map time_of ts))) }
    {
        match self.find(name) {
            Some(txn) => Ok(update_by(alloc, txn, status, ts)?),
            None => Err(CommandStop::NoTxn),
        }
    }

    /// Who writes. [`CommandStop::NoTxn`] comes exactly where the name stands for no transaction.
    pub fn actor<'a>(&'a self, who: Who<'_>) -> Result<Actor<'a>, CommandStop>
        ensures { MatchResult result (λ a. actor self.now (who_of who.entry) ≡ Ok (actor_of a)) (λ stop. Tells (told_by stop) (actor self.now (who_of who.entry))) }
    {
        match who {
            Who::AtTime(ts) => Ok(Actor::At(ts)),
            Who::InTxn(name) => match self.find(name) {
                Some(txn) => Ok(Actor::In(txn)),
                None => Err(CommandStop::NoTxn),
            },
        }
    }
}
