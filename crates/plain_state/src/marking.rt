//! What the end of a fetch without its blob leaves.

ghost use Rattle.std.specs.Prelude.{◌≡◌};
ghost use Rattle.package_indexes.specs.Sets.{AreDistinct};
ghost use Rattle.store_model.specs.Acts.Marking.{ended};
ghost use Rattle.plain_state.specs.Marks.{marks_with, marks_after};

use crate::state::State;
use fetch_queue::{FetchEnd, Queue};
use package_book::Shelf;
use package_indexes::Arriving;
use pkg_names::Root;
use plain_stock::is_naming;

// The package that arrives is marked, if it names the blob.
fn mark_one(queue: &mut Queue, books: &Shelf, arrival: &Arriving, root: &Root, end: FetchEnd)
    ensures { queue.new ≡ record queue.old { marks = marks_with books.now root.now end arrival.now queue.old.marks } }
{
    if is_naming(books, &arrival.root, root) {
        queue.mark(arrival.ticket, end);
    }
}

// Each package that names the blob is marked.
fn mark_each(queue: &mut Queue, books: &Shelf, arriving: &[Arriving], root: &Root, end: FetchEnd)
    ensures { queue.new ≡ record queue.old { marks = marks_after books.now root.now end arriving.now queue.old.marks } }
{
    for arrival in arriving {
        mark_one(queue, books, arrival, root, end);
    }
}

impl State {
    /// A claim goes, and the packages that name the blob are marked. A first mark stays.
    pub fn end_claim(&mut self, root: &Root, end: FetchEnd)
        ensures { self.new ≡ ended self.old root.now end }
    {
        mark_each(
            &mut self.queue,
            &self.books,
            self.indexes.arriving(),
            root,
            end,
        );
        self.queue.end_claim(root);
    }
}
