//! Sizes and counts in front of a body.

ghost use Rattle.std.specs.Prelude.{◌≡◌, ◌<◌, ◌≤◌, length, [], true, false, IfErr};
ghost use Rattle.std.specs.Prelude.{OnErr};
ghost use Rattle.amqp_write.specs.State.{stand, mark_of, unmarked, answering, size_in};
ghost use Rattle.amqp_write.specs.Law.{Kept, IsDevice, unwritten};
ghost use Rattle.amqp_write.specs.Appending.{PaysUnder, as_error};
ghost use Rattle.amqp_write.specs.Wholes.{whole_text, shape_code, narrow_of, empty_list, head_text};

use crate::place::{LONGEST, Mark, NARROW, Place};
use crate::refusal::Refusal;
use amqp_base::{EncodingCodes, Shape, Sink, Size, codes};
use std::io::ErrorKind;

/// The code with a size and a count of four bytes each.
#[inline(always)]
fn wide_code(shape: Shape) -> EncodingCodes
    ensures { result ≡ shape_code shape }
{
    match shape {
        Shape::List => EncodingCodes::List32,
        Shape::Array => EncodingCodes::Array32,
        Shape::Tuple(_) => EncodingCodes::List32,
        Shape::Map => EncodingCodes::Map32,
        Shape::Fields => EncodingCodes::Map32,
    }
}

/// The byte of the code with a size and a count of one byte each.
#[inline(always)]
fn narrow_byte(shape: Shape) -> u8
    ensures { result ≡ narrow_of shape }
{
    match shape {
        Shape::List => codes::LIST8,
        Shape::Array => codes::ARRAY8,
        Shape::Tuple(_) => codes::LIST8,
        Shape::Map => codes::MAP8,
        Shape::Fields => codes::MAP8,
    }
}

/// Whether a body of so many bytes is that of the empty list.
#[inline(always)]
fn is_empty_list(shape: Shape, len: usize) -> bool
    ensures { result ≡ empty_list shape len }
{
    match shape {
        Shape::List => len == 0,
        Shape::Array => false,
        Shape::Tuple(_) => len == 0,
        Shape::Map => false,
        Shape::Fields => false,
    }
}

impl Place {
    /// The header of a compound of this size, where it stands. A body of more than 4,294,967,291
    /// bytes is `Io(Other)`.
    #[inline(always)]
    pub fn head<W: Sink>(&mut self, writer: &mut W, shape: Shape, size: Size) -> Result<(), Refusal>
        requires answers { self.old.ended ≡ false }
        ensures law { PaysUnder (stand W.Write W.FaultCount writer.old self.old) (shape_code shape)
            (head_text shape (mark_of self.old) (size_in size)) (unwritten size.length)
            (as_error result) (stand W.Write W.FaultCount writer.new self.new) }
    {
        if size.length > LONGEST {
            self.ended = true;
            return Err(Refusal::Io(ErrorKind::Other));
        }
        let length = ((size.length + 4) as u32).to_be_bytes();
        let n = ((size.count % 0x1_0000_0000) as u32).to_be_bytes();
        let mark = self.mark;
        match mark {
            Mark::Unmarked => {
                if is_empty_list(shape, size.length) {
                    return self.append(writer, &[codes::LIST0]);
                }
                if size.length <= NARROW {
                    return self.append(
                        writer,
                        &[
                            narrow_byte(shape),
                            (size.length + 1) as u8,
                            (size.count % 256) as u8,
                        ],
                    );
                }
                let code = wide_code(shape).byte();
                self.append(
                    writer,
                    &[
                        code, length[0], length[1], length[2], length[3], n[0], n[1], n[2], n[3],
                    ],
                )
            }
            _ => self.element(
                writer,
                wide_code(shape),
                &[
                    length[0], length[1], length[2], length[3], n[0], n[1], n[2], n[3],
                ],
                &[],
            ),
        }
    }

    /// Writes a compound of so many parts with this body, on a serializer that the compound holds.
    /// It answers again where that succeeds. A body of more than 4,294,967,291 bytes is
    /// `Io(Other)`.
    #[inline(never)]
    pub fn finish<W: Sink>(
        &mut self,
        writer: &mut W,
        shape: Shape,
        count: usize,
        body: &[u8],
    ) -> Result<(), Refusal>
        ensures law { count ≤ length body.now → PaysUnder
            (answering (stand W.Write W.FaultCount writer.old self.old)) (shape_code shape)
            (whole_text shape (mark_of self.old) count body.now) (unwritten (length body.now))
            (as_error result) (stand W.Write W.FaultCount writer.new self.new) }
        ensures kept { Kept (stand W.Write W.FaultCount writer.old self.old)
            (stand W.Write W.FaultCount writer.new self.new) }
        ensures device { IfErr (as_error result)
            (λ e. IsDevice e → W.faults writer.old < W.faults writer.new) }
        ensures err { OnErr result (self.new.ended ≡ true) }
    {
        self.ended = false;
        let len = body.len();
        if len > LONGEST {
            self.ended = true;
            return Err(Refusal::Io(ErrorKind::Other));
        }
        let size = ((len + 4) as u32).to_be_bytes();
        let n = ((count % 0x1_0000_0000) as u32).to_be_bytes();
        let mark = self.mark;
        match mark {
            Mark::Unmarked => self.finish_unmarked(writer, shape, count, body),
            _ => self.element(
                writer,
                wide_code(shape),
                &[size[0], size[1], size[2], size[3], n[0], n[1], n[2], n[3]],
                body,
            ),
        }
    }

    /// Writes the whole outside arrays: an empty list as one byte, any other behind the shortest
    /// header.
    #[inline(always)]
    fn finish_unmarked<W: Sink>(
        &mut self,
        writer: &mut W,
        shape: Shape,
        count: usize,
        body: &[u8],
    ) -> Result<(), Refusal>
        requires answers { self.old.ended ≡ false }
        requires marked { mark_of self.old ≡ unmarked }
        requires short { length body.now ≤ 4294967291 }
        ensures law { count ≤ length body.now → PaysUnder
            (stand W.Write W.FaultCount writer.old self.old) (shape_code shape)
            (whole_text shape (mark_of self.old) count body.now) (unwritten (length body.now))
            (as_error result) (stand W.Write W.FaultCount writer.new self.new) }
        ensures kept { Kept (stand W.Write W.FaultCount writer.old self.old)
            (stand W.Write W.FaultCount writer.new self.new) }
        ensures device { IfErr (as_error result)
            (λ e. IsDevice e → W.faults writer.old < W.faults writer.new) }
        ensures err { OnErr result (self.new.ended ≡ true) }
    {
        let len = body.len();
        if is_empty_list(shape, len) {
            return self.append(writer, &[codes::LIST0]);
        }
        if len <= NARROW {
            let head = [narrow_byte(shape), (len + 1) as u8, (count % 256) as u8];
            return self.append_two(writer, &head, body);
        }
        let code = wide_code(shape).byte();
        let length = ((len + 4) as u32).to_be_bytes();
        let parts = ((count % 0x1_0000_0000) as u32).to_be_bytes();
        let head = [
            code, length[0], length[1], length[2], length[3], parts[0], parts[1], parts[2],
            parts[3],
        ];
        self.append_two(writer, &head, body)
    }
}
