//! References that were asked for, and the roles that watch references: one entry for each reference that is known, found by its hash.
ghost use Rattle.std.specs.Prelude.{◌≡◌, ℕ, ◌<◌, true, false, not, ◌||◌, ◌&&◌, nat_eq, IfOk, IfSome, OnOk, OnErr, IsOk, None, All};
ghost use Rattle.aw_name.specs.declared.node.Ref.{Ref as RefName};
ghost use Rattle.aw_term.specs.Names.{ref_eq};
ghost use Rattle.aw_subs.specs.Entries.{is_asked, watches, watchers, is_ready, entry_of, entry_or, amended, Writes};

use aw_name::{Ref, copy_ref};
use std::alloc::{AllocError, Global};
use std::collections::HashMap;

/// What is noted of a reference: whether it was asked for, and the roles that watch it, one bit each.
#[derive(Clone, Copy)]
pub struct Sub {
    pub asked: bool,
    pub watchers: u64,
}

/// The entry of a reference that was not asked for, and that nobody watches.
const NOTHING: Sub = Sub {
    asked: false,
    watchers: 0,
};

/// The references that were asked for, and the watchers of references. A reference with an entry is ready: to ask for it, and to
/// watch it, takes no memory.
#[derive(Drop)]
pub struct Subs {
    pub subs: HashMap<Ref, Sub>,
}

/// What is noted of a reference.
fn noted(subs: &HashMap<Ref, Sub>, r: &Ref) -> Option<Sub>
    ensures { result ≡ entry_of subs.now r.now }
{
    subs.get(r).copied()
}

/// Adds to the entry of a reference, where it has one, and gives what was noted before.
fn amend(subs: &mut HashMap<Ref, Sub>, r: &Ref, asked: bool, watchers: u64) -> Option<Sub>
    ensures was { result ≡ entry_of subs.old r.now }
    ensures written { IfSome result (λ was. Writes subs.old subs.new r.now (amended was asked watchers)) }
    ensures kept { result ≡ None → (x : RefName) → entry_of subs.new x ≡ entry_of subs.old x }
{
    let entry = subs.get_mut(r)?;
    let was = *entry;
    *entry = Sub {
        asked: was.asked | asked,
        watchers: was.watchers | watchers,
    };
    Some(was)
}

/// Adds the entry of a reference that has none. An error changes nothing.
fn add(subs: &mut HashMap<Ref, Sub>, r: &Ref, sub: Sub) -> Result<(), AllocError>
    requires { entry_of subs.old r.now ≡ None }
    ensures ok { OnOk result (Writes subs.old subs.new r.now sub) }
    ensures err { OnErr result ((x : RefName) → entry_of subs.new x ≡ entry_of subs.old x) }
{
    subs.insert(copy_ref(r)?, sub)?;
    Ok(())
}

/// Gives a reference an entry, where it has none. It is looked for once. An error changes nothing.
fn admit(subs: &mut HashMap<Ref, Sub>, r: &Ref) -> Result<(), AllocError>
    ensures ok { OnOk result (Writes subs.old subs.new r.now (entry_or (entry_of subs.old r.now))) }
    ensures err { OnErr result ((x : RefName) → entry_of subs.new x ≡ entry_of subs.old x) }
{
    subs.entry(copy_ref(r)?)?.or_insert(NOTHING);
    Ok(())
}

impl Subs {
    /// Nothing asked for, nobody watching.
    pub fn new(alloc: Global) -> Subs
        ensures asked { (x : RefName) → is_asked result.subs x ≡ false }
        ensures watchers { (x : RefName) → watchers result.subs x ≡ 0 }
    {
        Subs {
            subs: HashMap::new(alloc),
        }
    }

    /// Notes that a reference was asked for; whether it was not so before. An error changes nothing.
    pub fn ask(&mut self, r: &Ref) -> Result<bool, AllocError>
        ensures answer { IfOk result (λ new. new ≡ not (is_asked self.old.subs r.now)) }
        ensures asked { OnOk result ((x : RefName) → is_asked self.new.subs x ≡ (ref_eq r.now x || is_asked self.old.subs x)) }
        ensures watchers { (x : RefName) → watchers self.new.subs x ≡ watchers self.old.subs x }
        ensures err { OnErr result ((x : RefName) → entry_of self.new.subs x ≡ entry_of self.old.subs x) }
        ensures ready { (x : RefName) → is_ready self.old.subs x ≡ true → is_ready self.new.subs x ≡ true }
        ensures sure { is_ready self.old.subs r.now ≡ true → IsOk result }
    {
        match amend(&mut self.subs, r, true, 0) {
            Some(was) => Ok(!was.asked),
            None => {
                let entry = Sub {
                    asked: true,
                    ..NOTHING
                };
                add(&mut self.subs, r, entry)?;
                Ok(true)
            }
        }
    }

    /// Notes that a role watches a reference; whether it did not so before. An error changes nothing.
    pub fn watch(&mut self, r: &Ref, role: u16) -> Result<bool, AllocError>
        requires { role < 64 }
        ensures answer { IfOk result (λ new. new ≡ not (watches self.old.subs r.now role)) }
        ensures watchers { OnOk result ((x : RefName) (by_role : ℕ) → watches self.new.subs x by_role ≡ ((ref_eq r.now x && nat_eq role by_role) || watches self.old.subs x by_role)) }
        ensures asked { (x : RefName) → is_asked self.new.subs x ≡ is_asked self.old.subs x }
        ensures err { OnErr result ((x : RefName) → entry_of self.new.subs x ≡ entry_of self.old.subs x) }
        ensures ready { (x : RefName) → is_ready self.old.subs x ≡ true → is_ready self.new.subs x ≡ true }
        ensures sure { is_ready self.old.subs r.now ≡ true → IsOk result }
    {
        let bit = 1u64 << role;
        match amend(&mut self.subs, r, false, bit) {
            Some(was) => Ok((was.watchers >> role) & 1 == 0),
            None => {
                let entry = Sub {
                    watchers: bit,
                    ..NOTHING
                };
                add(&mut self.subs, r, entry)?;
                Ok(true)
            }
        }
    }

    /// The roles that watch a reference, one bit each. It takes no memory.
    pub fn watchers_of(&self, r: &Ref) -> u64
        ensures { result ≡ watchers self.now.subs r.now }
    {
        match noted(&self.subs, r) {
            Some(sub) => sub.watchers,
            None => 0,
        }
    }

    /// Whether a reference was asked for. It takes no memory.
    pub fn has_asked(&self, r: &Ref) -> bool
        ensures { result ≡ is_asked self.now.subs r.now }
    {
        match noted(&self.subs, r) {
            Some(sub) => sub.asked,
            None => false,
        }
    }

    /// Makes one reference ready.
    fn ready_one(&mut self, r: &Ref) -> Result<(), AllocError>
        ensures asked { (x : RefName) → is_asked self.new.subs x ≡ is_asked self.old.subs x }
        ensures watchers { (x : RefName) → watchers self.new.subs x ≡ watchers self.old.subs x }
        ensures kept { (x : RefName) → is_ready self.old.subs x ≡ true → is_ready self.new.subs x ≡ true }
        ensures ready { OnOk result (is_ready self.new.subs r.now ≡ true) }
    {
        admit(&mut self.subs, r)
    }

    /// Makes these references ready. It changes neither what was asked for nor the watchers; after an error some of them may be ready.
    pub fn reserve(&mut self, refs: &[Ref]) -> Result<(), AllocError>
        ensures asked { (x : RefName) → is_asked self.new.subs x ≡ is_asked self.old.subs x }
        ensures watchers { (x : RefName) → watchers self.new.subs x ≡ watchers self.old.subs x }
        ensures kept { (x : RefName) → is_ready self.old.subs x ≡ true → is_ready self.new.subs x ≡ true }
        ensures ready { OnOk result (All (λ x. is_ready self.new.subs x ≡ true) refs.now) }
    {
        for r in refs {
            self.ready_one(r)?;
        }
        Ok(())
    }
}
