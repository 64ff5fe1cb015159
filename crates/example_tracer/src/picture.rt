//! What is drawn of a conversation: its frame, the ways of the messages, and what was lost.
ghost use Rattle.std.specs.Prelude.{◌≡◌, [], ◌∷◌, ◌++◌, IfOk, OnOk, position, string_bytes};
ghost use Rattle.example_tracer.specs.Frame.{ways_in};
ghost use Rattle.example_tracer.specs.Picture.{makes, rows_of_way, lost_rows, IsDrawn, Pictures};

use crate::arrows::{Arrow, is_lost, trace};
use crate::drawing::{Shape, drawing};
use crate::exchange::{Exchange, is, made, word};
use crate::lifelines::{Frame, Shapes, end, push};
use std::alloc::{AllocError, Global};

/// How each class of shape looks.
const STYLE: &str =
    "<style>text{font:13px monospace}.reply,.untold{fill:#777}.name{font-weight:bold}.nobody{fill:#c30;font-weight:bold}
.life{stroke:#bbb}.message{stroke:#06c;stroke-width:2;marker-end:url(#tip)}.held{stroke:#06c;stroke-opacity:.3;stroke-width:10}
.lost{stroke:#c30;stroke-width:2;stroke-dasharray:6 4;marker-end:url(#cross)}</style>
<marker id=\"tip\" viewBox=\"0 0 8 8\" refX=\"7\" refY=\"4\" markerWidth=\"5\" markerHeight=\"5\" orient=\"auto\"><path d=\"M0 0L8 4L0 8z\" fill=\"#06c\"/></marker>
<marker id=\"cross\" viewBox=\"0 0 8 8\" refX=\"4\" refY=\"4\" markerWidth=\"6\" markerHeight=\"6\"><path d=\"M0 0L8 8M8 0L0 8\" stroke=\"#c30\" stroke-width=\"2\"/></marker>
<rect width=\"100%\" height=\"100%\" fill=\"#fff\"/>
";

/// Whether a reply says that what has this name was made.
fn makes(it: &Exchange<'_>, name: &[u8]) -> bool
    ensures { result ≡ makes name.now it.now }
{
    match made(it.reply) {
        Some(made) => is(made, name),
        None => false,
    }
}

/// The row in which what has this name was made; None where no reply says so.
fn birth(conversation: &[Exchange<'_>], name: &[u8]) -> Option<usize>
    ensures { result ≡ position (makes name.now) conversation.now }
{
    for row in 0..conversation.len() {
        if makes(&conversation[row], name) {
            return Some(row);
        }
    }
    None
}

/// Adds the way of an arrow, from one lifeline to another: a stroke from the row of its origin to that of its receipt, or a sign at its
/// receipt if the origin isn't known.
fn push_way(
    shapes: &mut Shapes<'_>,
    arrow: &Arrow<'_>,
    from: usize,
    to: usize,
) -> Result<(), AllocError>
    ensures { OnOk result (ways_in shapes.new.items ≡ ways_in shapes.old.items ++ rows_of_way arrow.now ∷ []) }
{
    let way = match arrow.origin {
        Some(origin) => Shape::Stroke("message", (from, origin), (to, arrow.receipt)),
        None => Shape::Text("untold", (to.saturating_sub(16), arrow.receipt), b"?"),
    };
    push(shapes, way)
}

/// Adds a stroke in the row of each line that an arrow shows as lost.
fn push_losses(
    shapes: &mut Shapes<'_>,
    conversation: &[Exchange<'_>],
    before: &[Arrow<'_>],
    arrow: &Arrow<'_>,
    from: usize,
    to: usize,
) -> Result<(), AllocError>
    ensures { OnOk result (ways_in shapes.new.items ≡ ways_in shapes.old.items ++ lost_rows conversation.now before.now arrow.now) }
{
    let since = birth(conversation, arrow.subscriber).unwrap_or(0);
    for line in 0..conversation.len() {
        if is_lost(conversation, before, arrow, line, since) {
            let lost = Shape::Stroke("lost", (from, line), (from / 2 + to / 2, line));
            push(shapes, lost)?;
        }
    }
    Ok(())
}

/// Adds for how long a message was held, its way, and what its subscriber never gets.
fn push_arrow(
    shapes: &mut Shapes<'_>,
    frame: &Frame<'_>,
    conversation: &[Exchange<'_>],
    before: &[Arrow<'_>],
    arrow: &Arrow<'_>,
) -> Result<(), AllocError>
    ensures { OnOk result (ways_in shapes.new.items ≡ ways_in shapes.old.items ++ rows_of_way arrow.now ∷ []
        ++ lost_rows conversation.now before.now arrow.now) }
{
    let (from, to) = (frame.find(arrow.publisher), frame.find(arrow.subscriber));
    if let Some(it) = conversation.get(arrow.receipt) {
        let until = end(conversation, word(word(it.reply).1).0, arrow.receipt);
        let held = Shape::Stroke("held", (to, arrow.receipt), (to, until));
        push(shapes, held)?;
    }
    push_way(shapes, arrow, from, to)?;
    push_losses(shapes, conversation, before, arrow, from, to)
}

/// All that is drawn: the frame, the arrows, and the names of the lifelines.
fn shapes<'a>(
    alloc: Global,
    frame: &Frame<'a>,
    conversation: &[Exchange<'a>],
    arrows: &[Arrow<'_>],
) -> Result<Shapes<'a>, AllocError>
    ensures { IfOk result (λ shapes. IsDrawn conversation.now arrows.now (ways_in shapes.items)) }
{
    let mut shapes = frame.shapes(alloc, conversation)?;
    for (at, arrow) in arrows.iter().enumerate() {
        push_arrow(&mut shapes, frame, conversation, &arrows[..at], arrow)?;
    }
    frame.push_names(&mut shapes)?;
    Ok(shapes)
}

/// The picture of a conversation, as SVG.
pub fn picture(alloc: Global, conversation: &[Exchange<'_>]) -> Result<String, AllocError>
    // A drawing in which exactly the arrows of the conversation's messages are drawn as ways, and exactly the lost messages as lost.
    ensures { IfOk result (λ text. Pictures conversation.now (string_bytes text)) }
{
    let arrows = trace(alloc, conversation)?;
    let frame = Frame::new(alloc, conversation)?;
    let shapes = shapes(alloc, &frame, conversation, &arrows)?;
    drawing(alloc, STYLE, frame.width, conversation.len(), &shapes)
}
