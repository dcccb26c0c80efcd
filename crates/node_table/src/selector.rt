//! The page that tells which copy of the table counts.

ghost use Rattle.std.specs.Prelude.{Bool, IfSome, IfNone};
ghost use Rattle.node_table.specs.Spelling.{Selects};

const MAGIC: [u8; 4] = *b"SEL1";

/// The page that selects the first copy or the second, with zeros behind its text.
pub(crate) fn selector_page(second: bool) -> [u8; 4096]
    ensures { Selects result second }
{
    let mut page = [0; 4096];
    page[..4].copy_from_slice(&MAGIC);
    page[4] = u8::from(second);
    page
}

/// Whether the second copy counts, or `None` where the page selects none.
pub(crate) fn selected(page: &[u8; 4096]) -> Option<bool>
    ensures found { IfSome result (Selects page.now) }
    ensures none { IfNone result ((second : Bool) → Selects page.now second → ⊥) }
{
    if &page[..4] != &MAGIC[..] {
        return None;
    }
    match page[4] {
        0 => Some(false),
        1 => Some(true),
        _ => None,
    }
}
