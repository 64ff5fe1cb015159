//! Texts of visible bytes.
ghost use Rattle.std.specs.Prelude.{◌≡◌, ◌&&◌, nat_le};
ghost use Rattle.std.specs.List.{list_all};
ghost use Rattle.iox_line.specs.Visible.{is_visible, is_visible_text};

/// Whether a text has `least` to `most` bytes, each of 0x21..=0x7E.
pub fn is_visible_text(least: usize, most: usize, text: &[u8]) -> bool
    ensures { result ≡ is_visible_text least most text.now }
{
    least <= text.len() && text.len() <= most && are_visible(text)
}

fn are_visible(text: &[u8]) -> bool
    ensures { result ≡ list_all is_visible text.now }
{
    text.iter().all(|&byte| 33 <= byte && byte <= 126)
}
