//! A law of the list of open directories. Its function has an empty body: its contract is the law.

ghost use Rattle.std.specs.Prelude.{◌≡◌, ◌≢◌, ℕ, List, [], ◌∷◌, ◌++◌, false, Some, None};
ghost use Rattle.std.specs.List.{All};
ghost use Rattle.open_tracker.specs.declared.dirs.DirEntry.{DirEntry};
ghost use Rattle.open_tracker.specs.Directories.{is_of, root_of, without};

/// A directory that is opened is open for its lane alone, one that is closed is open for nobody, and
/// every other number of every lane stays as it was.
pub fn directories_open_and_close()
    ensures opened { (dirs : List DirEntry) (dir : DirEntry) → All (λ other. other.number ≢ dir.number) dirs
        → root_of (dirs ++ dir ∷ []) dir.number dir.lane ≡ Some dir.root }
    ensures alone { (dirs : List DirEntry) (dir : DirEntry) (lane : ℕ) → All
        (λ other. other.number ≢ dir.number) dirs → lane ≢ dir.lane
        → root_of (dirs ++ dir ∷ []) dir.number lane ≡ None }
    ensures opened_rest { (dirs : List DirEntry) (dir : DirEntry) (number lane : ℕ) → number ≢ dir.number
        → root_of (dirs ++ dir ∷ []) number lane ≡ root_of dirs number lane }
    ensures closed { (dirs : List DirEntry) (number lane : ℕ)
        → root_of (without dirs number lane) number lane ≡ None }
    ensures closed_numbers { (dirs : List DirEntry) (number lane other by : ℕ) → number ≢ other
        → root_of (without dirs number lane) other by ≡ root_of dirs other by }
    ensures closed_lanes { (dirs : List DirEntry) (number lane other by : ℕ) → lane ≢ by
        → root_of (without dirs number lane) other by ≡ root_of dirs other by }
{}
