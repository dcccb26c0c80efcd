ghost use Rattle.std.specs.Prelude.{◌≡◌, ◌≢◌, ◌<◌, ◌↔◌, length, All, Some, IsNone};
ghost use Rattle.std.specs.Borrow.{sem, Lends, LendsIf};
ghost use Rattle.std.specs.List.{position, slice_get};
ghost use Rattle.std.specs.Option.{option_map, option_copied_mut};
ghost use Rattle.rewrite_rules.specs.Hosts.{has_host};

use pkg_names::Texts;
use std::marker::Model;

/// A host, and the repository that is asked for its packages.
#[derive(Debug, Drop)]
pub struct HostRepo<R> {
    pub host: Texts,
    pub repo: R,
}

impl<R> HostRepo<R> {
    ghost use Rattle.rewrite_rules.specs.contracts.hosts.HostRepo.{the_row};

    fn repo_mut(&mut self) -> &mut R
        ensures* lends { sem 𝓛 (Lends (the_row R.row) R.row self.entry result (λ w. record self.old { repo = w })) }
        ensures value { result.now ≡ self.old.repo }
    {
        &mut self.repo
    }
}

/// The repositories of hosts. Contracts see the list of pairs.
#[derive(Debug, Drop)]
pub struct Hosts<R> {
    pairs: Vec<HostRepo<R>>,
}

impl<R> Model for Hosts<R> {
    ghost use Rattle.std.specs.Prelude.{List};
    ghost use Rattle.rewrite_rules.specs.declared.hosts.HostRepo.{HostRepo as PairOf};
    ghost use Rattle.rewrite_rules.specs.Hosts.{AreDistinct};

    ghost Value = { List (PairOf R) };

    ghost view = { λ h. h.pairs.items };

    ghost invariant = { λ h. AreDistinct h.pairs.items };
}

impl<R> Hosts<R> {
    ghost use Rattle.rewrite_rules.specs.declared.hosts.HostRepo.{HostRepo as PairOf};
    ghost use Rattle.rewrite_rules.specs.contracts.hosts.Hosts.{the_row};
    ghost use Rattle.rewrite_rules.specs.Hosts.{AreDistinct, repo_of, with_repo, with_repo_at};

    /// The repositories of these hosts.
    pub fn make(pairs: Vec<HostRepo<R>>) -> Hosts<R>
        requires { AreDistinct pairs.items }
        ensures { result ≡ pairs.items }
    {
        Hosts { pairs }
    }

    /// The pairs.
    pub fn pairs(&self) -> &[HostRepo<R>]
        ensures list { result.now ≡ self.now }
        ensures distinct { AreDistinct self.now }
    {
        &self.pairs
    }

    /// The repository of a host. Its pair has it afterwards as it is left.
    pub fn pick(&mut self, host: &[u8]) -> Option<&mut R>
        ensures* writes_back { sem 𝓛
            (LendsIf (the_row R.row) R.row self.entry result (with_repo self.old host.now) self.old) }
        ensures repo { option_copied_mut result ≡ repo_of self.old host.now }
        ensures none { IsNone result ↔ All (λ (pair : PairOf R). pair.host ≢ host.now) self.old }
    {
        match place_of(&self.pairs, host) {
            Some(place) => Some(self.repo_at(place)),
            None => None,
        }
    }

    fn repo_at(&mut self, place: usize) -> &mut R
        requires { place < length self.old }
        ensures* writes_back { sem 𝓛 (Lends (the_row R.row) R.row self.entry result (with_repo_at self.old place)) }
        ensures value { option_map (λ (pair : PairOf R). pair.repo) (slice_get self.old place) ≡ Some result.now }
    {
        self.pairs[place].repo_mut()
    }
}

// Where the host stands.
fn place_of<R>(pairs: &[HostRepo<R>], host: &[u8]) -> Option<usize>
    ensures { result ≡ position (has_host host.now) pairs.now }
{
    pairs.iter().position(|pair| pair.host.as_slice() == host)
}
