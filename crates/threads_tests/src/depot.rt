//! A value like a store's: generic over a disk, which need be `Send` alone, with what the disk was at the beginning, a
//! list whose invariant is a recursion, and a hasher for each lane.
ghost use Rattle.std.specs.Prelude.{◌≡◌, ◌≢◌, ◌++◌, ◌∷◌, [], ℕ, List, true, false, IfOk, slice_get};
ghost use Rattle.turn_lock.specs.Rule.{TakesTurn};
ghost use Rattle.threads_tests.specs.Depot.{Drafted, depot_log};
ghost use Rattle.threads_tests.specs.declared.depot.Put.{Put};

use disk_model::Disk;
use pkg_merkle::Hasher;
use std::alloc::{AllocError, Global};
use std::marker::Model;
use std::snapshot::Snapshot;
use turn_lock::Logged;

/// A piece that a lane put.
#[derive(Clone, Copy)]
pub struct Put {
    pub lane: u32,
    pub number: u64,
}

#[derive(Drop)]
pub struct Depot<D: Disk + Drop> {
    disk: D,
    begun: Snapshot<D>,
    puts: Vec<Put>,
    drafts: Vec<Hasher>,
}

impl<D: Disk + Drop> Model for Depot<D> {
    ghost use Rattle.threads_tests.specs.Depot.{Stock, AreNumbered};

    ghost Value = { Stock D };

    ghost view = { λ d. record { begun = d.begun.value; puts = d.puts.items; drafts = d.drafts.items } };

    ghost invariant = { λ d. AreNumbered 0 d.puts.items };
}

impl<D: Disk + Drop> Logged for Depot<D> {
    type Entry = Put;

    type Origin = D;

    type Held = Option<Hasher>;

    ghost use Rattle.std.specs.Prelude.{slice_get};

    ghost entries = { λ d. d.puts };

    ghost by = { λ p. p.lane };

    ghost origin = { λ d. d.begun };

    ghost held = { λ lane d. slice_get d.drafts lane };
}

fn write_piece<D: Disk>(disk: &mut D, page: u32, piece: &[u8; 4096]) {
    if page < disk.pages() {
        let _ = disk.write(page, piece);
    }
}

// Feeds the lane's draft. Tells whether it did.
fn feed(drafts: &mut Vec<Hasher>, lane: u32, piece: &[u8; 4096]) -> bool
    ensures fed { result ≡ true → (blob : List ℕ) → Drafted (slice_get drafts.old.items lane) blob
        → Drafted (slice_get drafts.new.items lane) (blob ++ piece.now) }
    ensures others { (l : ℕ) → l ≢ lane → slice_get drafts.new.items l ≡ slice_get drafts.old.items l }
    ensures refused { result ≡ false → drafts.new.items ≡ drafts.old.items }
{
    match drafts.get_mut(lane as usize) {
        Some(draft) => match draft.update(piece.as_slice()) {
            Ok(()) => true,
            Err(_) => false,
        },
        None => false,
    }
}

impl<D: Disk + Drop> Depot<D> {
    /// With empty drafts for the lanes 0, 1 and 2.
    pub fn make(alloc: Global, disk: D) -> Result<Depot<D>, AllocError>
        ensures begun { IfOk result (λ d. (d.begun ≡ disk) × (d.puts ≡ [])) }
        ensures drafts { IfOk result (λ d. Drafted (slice_get d.drafts 1) [] × Drafted (slice_get d.drafts 2) []) }
    {
        let mut drafts = Vec::new(alloc);
        drafts.push(Hasher::new())?;
        drafts.push(Hasher::new())?;
        drafts.push(Hasher::new())?;
        let begun = Snapshot::of(&disk);
        Ok(Depot {
            disk,
            begun,
            puts: Vec::new(alloc),
            drafts,
        })
    }

    /// Writes the piece to the lane's page, adds it to the lane's draft, and notes it. Tells whether it was noted.
    #[tactic(auto, using(crate::proofs::Depots::numbered_more, crate::proofs::Depots::takes))]
    pub fn put(&mut self, lane: u32, piece: &[u8; 4096]) -> bool
        ensures turn { TakesTurn depot_log lane self.old self.new }
        ensures entry { result ≡ true
            → (p : Put) × (p.lane ≡ lane) × (self.new.puts ≡ self.old.puts ++ p ∷ []) }
        ensures draft { result ≡ true → (blob : List ℕ) → Drafted (slice_get self.old.drafts lane) blob
            → Drafted (slice_get self.new.drafts lane) (blob ++ piece.now) }
        ensures refused { result ≡ false → self.new ≡ self.old }
    {
        let Depot {
            disk,
            puts,
            drafts,
            ..
        } = self;
        write_piece(disk, lane, piece);
        let number = puts.len() as u64;
        if puts.push(Put { lane, number }).is_err() {
            return false;
        }
        if feed(drafts, lane, piece) {
            return true;
        }
        let _ = puts.pop();
        false
    }

    pub fn into_parts(self) -> (Vec<Put>, Vec<Hasher>)
        ensures { (result.0.items ≡ self.puts) × (result.1.items ≡ self.drafts) }
    {
        let Depot { puts, drafts, .. } = self;
        (puts, drafts)
    }
}
