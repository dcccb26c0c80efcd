//! Counts of roots.

ghost use Rattle.std.specs.Prelude.{◌≡◌, ◌+◌, ◌-◌, ◌^◌, ◌<◌, [], IfOk, OnOk, OnErr, if◌then◌else◌};
ghost use Rattle.pkg_names.specs.declared.root.Root.{Root as RootOf};
ghost use Rattle.pkg_names.specs.Root.{root_eq};
ghost use Rattle.collector.specs.Counts.{count_of, HasRoom, IsGained, IsSame, Gains, Loses, zeros};

use pkg_names::{Root, Roots};
use std::alloc::{AllocError, Global};
use std::collections::BTreeMap;
use std::marker::Model;

/// How often each root was gained and not lost. Contracts see a list of roots with their counts; the count
/// of a root that isn't there is 0.
#[derive(Drop)]
pub struct Counts {
    counts: BTreeMap<Root, u128>,
    alloc: Global,
}

impl Model for Counts {
    ghost use Rattle.collector.specs.Counts.{Tally};

    ghost Value = { Tally };

    ghost view = { λ c. c.counts.entries };
}

impl Counts {
    /// Each count is 0.
    pub fn new(alloc: Global) -> Counts
        ensures { result ≡ [] }
    {
        Counts {
            counts: BTreeMap::new(alloc),
            alloc,
        }
    }

    /// The count of a root.
    pub fn count(&self, root: &Root) -> u128
        ensures { result ≡ count_of self.now root.now }
    {
        count_in(&self.counts, root)
    }

    /// Gains these roots: each count rises by how often its root stands there. Where memory is wanting,
    /// each count stays.
    pub fn gain(&mut self, roots: &[Root]) -> Result<(), AllocError>
        requires { HasRoom roots.now self.old }
        ensures ok { OnOk result (Gains roots.now self.old self.new) }
        ensures err { OnErr result (IsSame self.old self.new) }
    {
        gain_all(&mut self.counts, roots)
    }

    /// Loses these roots, each of which was gained, and not lost since, as often as it stands there.
    pub fn lose(&mut self, roots: &[Root])
        requires { IsGained roots.now self.old }
        ensures { Loses roots.now self.old self.new }
    {
        lose_all(&mut self.counts, roots);
    }

    /// The roots of the stock whose count is 0, in the order of the stock.
    pub fn zeros(&self, stock: &[Root]) -> Result<Roots, AllocError>
        ensures { IfOk result (λ roots. roots ≡ zeros self.now stock.now) }
    {
        let mut roots = Vec::from_slice(self.alloc, stock)?;
        keep_zeros(&mut roots, &self.counts);
        Ok(Roots::make(roots))
    }
}

fn count_in(counts: &BTreeMap<Root, u128>, root: &Root) -> u128
    ensures { result ≡ count_of counts.now.entries root.now }
{
    match counts.get(root) {
        Some(count) => *count,
        None => 0,
    }
}

fn keep_zeros(roots: &mut Vec<Root>, counts: &BTreeMap<Root, u128>)
    ensures { roots.new.items ≡ zeros counts.now.entries roots.old.items }
{
    roots.retain(|root| count_in(counts, root) == 0);
}

// One more of this root.
fn gain_one(counts: &mut BTreeMap<Root, u128>, root: Root) -> Result<(), AllocError>
    requires { count_of counts.old.entries root + 1 < 2 ^ 128 }
    ensures ok { OnOk result ((other : RootOf) → count_of counts.new.entries other
        ≡ count_of counts.old.entries other + (if root_eq root other then 1 else 0)) }
    ensures err { OnErr result (counts.new.entries ≡ counts.old.entries) }
{
    let count = count_in(counts, &root);
    counts.insert(root, count + 1)?;
    Ok(())
}

// One fewer of this root. A root with the count 0 has no entry.
fn lose_one(counts: &mut BTreeMap<Root, u128>, root: &Root)
    requires { 0 < count_of counts.old.entries root.now }
    ensures { (other : RootOf) → count_of counts.new.entries other
        ≡ count_of counts.old.entries other - (if root_eq root.now other then 1 else 0) }
{
    let count = count_in(counts, root);
    if count == 1 {
        let _ = counts.remove(root);
    } else {
        // The entry is there, so no memory is taken.
        let _ = counts.insert(*root, count - 1);
    }
}

fn gain_all(counts: &mut BTreeMap<Root, u128>, roots: &[Root]) -> Result<(), AllocError>
    requires { HasRoom roots.now counts.old.entries }
    ensures ok { OnOk result (Gains roots.now counts.old.entries counts.new.entries) }
    ensures err { OnErr result (IsSame counts.old.entries counts.new.entries) }
{
    for place in 0..roots.len() {
        if gain_one(counts, roots[place]).is_err() {
            lose_all(counts, &roots[..place]);
            return Err(AllocError);
        }
    }
    Ok(())
}

fn lose_all(counts: &mut BTreeMap<Root, u128>, roots: &[Root])
    requires { IsGained roots.now counts.old.entries }
    ensures { Loses roots.now counts.old.entries counts.new.entries }
{
    for root in roots {
        lose_one(counts, root);
    }
}
