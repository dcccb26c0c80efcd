//! The line of a package.

ghost use Rattle.std.specs.Prelude.{◌≡◌, ◌++◌, ◌∷◌, [], ◌≤◌, ℕ, take, IfOk, OnOk, OnErr};
ghost use Rattle.std.specs.Option.{option_map};
ghost use Rattle.pkg_names.specs.Streams.{Rose};
ghost use Rattle.pkg_names.specs.Text.{line_feed};
ghost use Rattle.system_lists.specs.Lists.{IsPinned};
ghost use Rattle.system_lists.specs.Static.{line_text};

use pkg_names::streams::{Sink, SinkFailed};
use pkg_names::{PackagePath, Root, write_root};
use std::alloc::{AllocError, Global};

/// Puts a line `<path>=<root>` last, with its line feed.
pub(crate) fn put_line(text: &mut Vec<u8>, path: &PackagePath, root: Root) -> Result<(), AllocError>
    ensures text { OnOk result (text.new.items ≡ text.old.items
        ++ (line_text (record { path = path.now; root = root }) ++ line_feed ∷ [])) }
    ensures pinned { OnOk result (IsPinned (record { path = path.now; root = root })) }
{
    let mut digits = [0u8; 64];
    write_root(&root, &mut digits);
    text.extend_from_slice(path.name())?;
    text.push(b'/')?;
    text.extend_from_slice(path.variant())?;
    text.push(b'=')?;
    text.extend_from_slice(&digits)?;
    text.push(b'\n')?;
    Ok(())
}

/// The line alone.
pub(crate) fn line_of(alloc: Global, path: &PackagePath, root: &Root) -> Result<Vec<u8>, AllocError>
    ensures { IfOk result (λ line. line.items
        ≡ line_text (record { path = path.now; root = root.now }) ++ line_feed ∷ []) }
{
    let mut line = Vec::new(alloc);
    put_line(&mut line, path, *root)?;
    Ok(line)
}

/// Gives a sink all bytes.
pub(crate) fn give_all<W: Sink>(out: &mut W, bytes: &[u8]) -> Result<(), SinkFailed>
    ensures ok { OnOk result (W.written out.new
        ≡ option_map (λ written. written ++ bytes.now) (W.written out.old)) }
    ensures err { OnErr result (Rose (W.faults out.old) (W.faults out.new)) }
    ensures front { OnErr result ((count : ℕ) × (W.written out.new
        ≡ option_map (λ written. written ++ take count bytes.now) (W.written out.old))) }
    ensures faults { W.faults out.old ≤ W.faults out.new }
{
    let mut done = 0;
    while done < bytes.len() {
        done += out.give(&bytes[done..])?;
    }
    Ok(())
}
