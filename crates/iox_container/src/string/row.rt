//! How both strings store their text: a row of cells whose first ones hold the text, and whose others are zero.
ghost use Rattle.std.specs.Prelude.{◌≡◌, ◌+◌, ◌-◌, ◌≤◌, ◌++◌, length, take, drop};
ghost use Rattle.iox_container.specs.StringBytes.{IsStringBytes};
ghost use Rattle.iox_container.specs.TextRow.{IsTextRow, HoldsText};
ghost use Rattle.iox_container.specs.Text.{range_replaced};

/// Replaces the bytes of the text from `from` up to `to` by `bytes`, and returns the new length of the text.
pub(crate) fn replace_in_row(
    cells: &mut [u8],
    len: usize,
    from: usize,
    to: usize,
    bytes: &[u8],
) -> usize
    requires row { IsTextRow (length cells.old) len cells.old }
    requires start_le_end { from ≤ to }
    requires in_bounds { to ≤ len }
    requires fits { len + length bytes.now ≤ length cells.old + (to - from) }
    requires valid { IsStringBytes bytes.now }
    ensures { HoldsText (length cells.old) result (range_replaced (take len cells.old) from to bytes.now) cells.new }
{
    let new_len = len - (to - from) + bytes.len();
    splice_cells(cells, len, from, to, bytes);
    if new_len < len {
        cells[new_len..len].fill(0);
    }
    new_len
}

/// Writes `bytes` at `from`, and moves the cells from `to` up to `len` so that they follow these bytes.
fn splice_cells(cells: &mut [u8], len: usize, from: usize, to: usize, bytes: &[u8])
    requires start_le_end { from ≤ to }
    requires in_bounds { to ≤ len }
    requires filled { len ≤ length cells.old }
    requires fits { len + length bytes.now ≤ length cells.old + (to - from) }
    ensures { cells.new ≡ take from cells.old
        ++ (bytes.now ++ (take (len - to) (drop to cells.old) ++ drop (from + length bytes.now + (len - to)) cells.old)) }
{
    let rest = from + bytes.len();
    cells.copy_within(to..len, rest);
    cells[from..rest].copy_from_slice(bytes);
}
