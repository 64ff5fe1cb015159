//! The frame of a conversation's picture: a row for each line, with its reply, and a lifeline for each node, factory, port and loan, from
//! the line that made it to the line that ended it.
ghost use Rattle.std.specs.Prelude.{◌≡◌, [], ◌∷◌, ◌++◌, IfOk, OnOk, codes, length, map};
ghost use Rattle.std.specs.List.{range_with_len};
ghost use Rattle.example_tracer.specs.Frame.{ways_in, texts_of, line_in, reply_in};

use crate::drawing::{Place, Shape};
use crate::exchange::{Exchange, ends, is, made, word};
use std::alloc::{AllocError, Global};

/// The shapes that are drawn so far.
pub type Shapes<'a> = Vec<Shape<'a>>;

/// Draws one more shape.
pub fn push<'a>(shapes: &mut Shapes<'a>, shape: Shape<'a>) -> Result<(), AllocError>
    ensures items { OnOk result (shapes.new.items ≡ shapes.old.items ++ shape.entry ∷ []) }
{
    shapes.push(shape)?;
    Ok(())
}

/// The first row at or after `from` that ended the thing with this name; otherwise the row after the last one.
pub fn end(conversation: &[Exchange<'_>], name: &[u8], from: usize) -> usize {
    for (row, it) in conversation.iter().enumerate() {
        if from <= row && ends(it, name) {
            return row;
        }
    }
    conversation.len()
}

/// How long the longest line is, and the longest reply.
fn longest(conversation: &[Exchange<'_>]) -> (usize, usize) {
    let (mut line, mut reply) = (0usize, 0usize);
    for it in conversation {
        line = line.max(it.line.len());
        reply = reply.max(it.reply.len());
    }
    (line, reply)
}

/// The horizontal place of the replies in a picture, and its lifelines, each with the row in which it begins.
#[derive(Drop)]
pub struct Frame<'a> {
    replies: usize,
    lifelines: Vec<(&'a [u8], Place)>,
    pub width: usize,
}

impl<'a> Frame<'a> {
    /// The frame of a conversation: as wide as its longest line and reply, and its lifelines.
    pub fn new(alloc: Global, conversation: &[Exchange<'a>]) -> Result<Self, AllocError> {
        let (line, reply) = longest(conversation);
        let replies = line.saturating_mul(8).saturating_add(32);
        let widest = reply.saturating_mul(8).saturating_add(48);
        let mut frame = Frame {
            replies,
            lifelines: Vec::new(alloc),
            width: widest.saturating_add(replies),
        };
        for (row, it) in conversation.iter().enumerate() {
            frame.push_lifeline(row, it)?;
        }
        Ok(frame)
    }

    /// Adds the lifeline of what was made in a row, if anything was.
    fn push_lifeline(&mut self, row: usize, it: &Exchange<'a>) -> Result<(), AllocError> {
        if let Some(name) = made(it.reply) {
            self.lifelines.push((name, (self.width, row)))?;
            self.width = self.width.saturating_add(64);
        }
        Ok(())
    }

    /// The horizontal place of the lifeline of this name; the left edge, if nothing of this name was made.
    pub fn find(&self, name: &[u8]) -> usize {
        for it in &self.lifelines {
            if is(it.0, name) {
                return it.1.0;
            }
        }
        0
    }

    /// Adds a line and its reply, and a sign where no mailbox took its message.
    fn push_row(
        &self,
        shapes: &mut Shapes<'a>,
        row: usize,
        it: &Exchange<'a>,
    ) -> Result<(), AllocError>
        ensures ways { OnOk result (ways_in shapes.new.items ≡ ways_in shapes.old.items) }
        ensures line { OnOk result (texts_of (codes "line") shapes.new.items ≡ texts_of (codes "line") shapes.old.items
            ++ (row, it.now.line.now) ∷ []) }
        ensures reply { OnOk result (texts_of (codes "reply") shapes.new.items ≡ texts_of (codes "reply") shapes.old.items
            ++ (row, it.now.reply.now) ∷ []) }
    {
        push(shapes, Shape::Text("line", (8, row), it.line))?;
        push(shapes, Shape::Text("reply", (self.replies, row), it.reply))?;
        if is(it.reply, b"ok 0") {
            let x = self.find(word(word(it.line).1).0).saturating_add(8);
            push(shapes, Shape::Text("nobody", (x, row), b"x"))?;
        }
        Ok(())
    }

    /// The lifelines.
    fn lines(&self, alloc: Global, conversation: &[Exchange<'_>]) -> Result<Shapes<'a>, AllocError>
        ensures ways { IfOk result (λ shapes. ways_in shapes.items ≡ []) }
        ensures lines { IfOk result (λ shapes. texts_of (codes "line") shapes.items ≡ []) }
        ensures replies { IfOk result (λ shapes. texts_of (codes "reply") shapes.items ≡ []) }
    {
        let mut shapes = Vec::new(alloc);
        for it in &self.lifelines {
            let (x, row) = it.1;
            let until = end(conversation, it.0, row);
            let life = Shape::Stroke("life", (x, row), (x, until));
            push(&mut shapes, life)?;
        }
        Ok(shapes)
    }

    /// What is drawn before the ways of the messages: the lifelines, and the lines with their replies.
    pub fn shapes(
        &self,
        alloc: Global,
        conversation: &[Exchange<'a>],
    ) -> Result<Shapes<'a>, AllocError>
        ensures ways { IfOk result (λ shapes. ways_in shapes.items ≡ []) }
        // Each line is in its row, and so is each reply.
        ensures lines { IfOk result (λ shapes. texts_of (codes "line") shapes.items
            ≡ map (line_in conversation.now) (range_with_len 0 (length conversation.now))) }
        ensures replies { IfOk result (λ shapes. texts_of (codes "reply") shapes.items
            ≡ map (reply_in conversation.now) (range_with_len 0 (length conversation.now))) }
    {
        let mut shapes = self.lines(alloc, conversation)?;
        for row in 0..conversation.len() {
            self.push_row(&mut shapes, row, &conversation[row])?;
        }
        Ok(shapes)
    }

    /// Adds the names of the lifelines, over what is drawn so far.
    pub fn push_names(&self, shapes: &mut Shapes<'a>) -> Result<(), AllocError>
        ensures { OnOk result (ways_in shapes.new.items ≡ ways_in shapes.old.items) }
    {
        for it in &self.lifelines {
            let (x, row) = it.1;
            let name = Shape::Text("name", (x.saturating_sub(8), row), it.0);
            push(shapes, name)?;
        }
        Ok(())
    }
}
