//! A drawing of strokes and texts in rows, as SVG.
ghost use Rattle.std.specs.Prelude.{◌≡◌, true, ◌++◌, IfOk, OnOk, string_bytes};
ghost use Rattle.std.specs.List.{flat_map, list_all};
ghost use Rattle.example_tracer.specs.Drawing.{middle_of, escaped, opens_nothing, stroke_of, opening_of, label_of, element_of, drawing_of};

use std::alloc::{AllocError, Global};
use std::fmt::Write;

/// A place in a drawing: how many pixels from the left, and in which row.
pub type Place = (usize, usize);

/// What is drawn: a stroke from one place to another, or a text at a place. Each has a class, by which the drawing's style says how it
/// looks.
#[derive(Clone, Copy)]
pub enum Shape<'a> {
    Stroke(&'static str, Place, Place),
    Text(&'static str, Place, &'a [u8]),
}

/// The distance in pixels of the middle of a row from the top.
fn middle(row: usize) -> usize
    ensures { result ≡ middle_of row }
{
    row.saturating_mul(24).saturating_add(28)
}

/// Writes a byte of a text: `<` and `&` by their names, other printable bytes as they are, and the rest as a question mark.
fn push_escaped(out: &mut String, byte: u8) -> Result<(), AllocError>
    ensures { OnOk result (string_bytes out.new ≡ string_bytes out.old ++ escaped byte) }
{
    match byte {
        b'<' => out.push_str("&lt;"),
        b'&' => out.push_str("&amp;"),
        32..=126 => out.push(char::from(byte)),
        _ => out.push_str("?"),
    }
}

/// Writes the bytes of a text.
fn push_text(out: &mut String, text: &[u8]) -> Result<(), AllocError>
    ensures written { OnOk result (string_bytes out.new ≡ string_bytes out.old ++ flat_map escaped text.now) }
    // Whatever the text is, a reader of the drawing finds no element in it.
    ensures inert { list_all opens_nothing (flat_map escaped text.now) ≡ true }
{
    for byte in text {
        push_escaped(out, *byte)?;
    }
    Ok(())
}

/// Writes a stroke.
fn push_stroke(out: &mut String, class: &str, from: Place, to: Place) -> Result<(), AllocError>
    ensures { OnOk result (string_bytes out.new ≡ string_bytes out.old ++ stroke_of class.now from to) }
{
    let ((x, row), (to_x, to_row)) = (from, to);
    let (y, to_y) = (middle(row), middle(to_row));
    write!(
        out,
        "<path class=\"{class}\" d=\"M{x} {y}L{to_x} {to_y}\"/>\n"
    )
}

/// Writes what comes before a text.
fn push_opening(out: &mut String, class: &str, at: Place) -> Result<(), AllocError>
    ensures { OnOk result (string_bytes out.new ≡ string_bytes out.old ++ opening_of class.now at) }
{
    let (x, y) = (at.0, middle(at.1).saturating_add(4));
    write!(out, "<text class=\"{class}\" x=\"{x}\" y=\"{y}\">")
}

/// Writes a text.
fn push_label(out: &mut String, class: &str, at: Place, text: &[u8]) -> Result<(), AllocError>
    ensures { OnOk result (string_bytes out.new ≡ string_bytes out.old ++ label_of class.now at text.now) }
{
    push_opening(out, class, at)?;
    push_text(out, text)?;
    write!(out, "</text>\n")
}

/// Writes a shape.
fn push_shape(out: &mut String, shape: &Shape<'_>) -> Result<(), AllocError>
    ensures { OnOk result (string_bytes out.new ≡ string_bytes out.old ++ element_of shape.now) }
{
    match *shape {
        Shape::Stroke(class, from, to) => push_stroke(out, class, from, to),
        Shape::Text(class, at, text) => push_label(out, class, at, text),
    }
}

/// The drawing of these shapes, the later ones over the earlier ones, with this width in pixels and this many rows.
pub fn drawing(
    alloc: Global,
    style: &str,
    width: usize,
    rows: usize,
    shapes: &[Shape<'_>],
) -> Result<String, AllocError>
    ensures { IfOk result (λ text. string_bytes text ≡ drawing_of style.now width rows shapes.now) }
{
    let height = middle(rows);
    let mut out = String::new(alloc);
    write!(
        out,
        "<svg xmlns=\"http://www.w3.org/2000/svg\" width=\"{width}\" height=\"{height}\">\n"
    )?;
    out.push_str(style)?;
    for shape in shapes {
        push_shape(&mut out, shape)?;
    }
    write!(out, "</svg>\n")?;
    Ok(out)
}
