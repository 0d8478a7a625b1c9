//! Frames (part 2, section 2.3), each received as a whole and read from memory.

use super::pieces::cut;
use own_types::Open;
use serde_amqp::{Counted, IoReader, Read, Source, from_slice_with_rest};
use std::alloc::Global;

/// A frame with a performative and two bytes of payload, and the front of another.
const FRAMES: &[u8] = b"\0\0\0\x19\x02\0\0\x01\
    \x00\x53\x10\xc0\x0a\x03\xa1\x01\x61\x40\x70\0\0\x02\x00xy\
    \0\0\0\x0f\x02\0";

/// The size that the next frame begins with, which stays.
fn size<S: Source>(reader: &mut IoReader<S>) -> Option<usize> {
    match reader.fill_buffer(4) {
        Ok(()) => {}
        Err(_) => return None,
    }
    match reader.peek_bytes(4) {
        Ok(Some(&[a, b, c, d])) => Some(u32::from_be_bytes([a, b, c, d]) as usize),
        _ => None,
    }
}

/// The next frame, where all of it comes.
fn frame<S: Source>(alloc: Global, reader: &mut IoReader<S>) -> Option<Vec<u8>> {
    let size = match size(reader) {
        Some(size) => size,
        None => return None,
    };
    match reader.read_bytes(alloc, size) {
        Ok(frame) => Some(frame),
        Err(_) => None,
    }
}

/// The body of the frame is a performative of frames of at most 512 bytes, and the payload.
fn opens(alloc: Global, frame: Option<Vec<u8>>) -> bool {
    let frame = match frame {
        Some(frame) => frame,
        None => return false,
    };
    let body = match frame.get(8..) {
        Some(body) => body,
        None => return false,
    };
    match from_slice_with_rest::<Open>(alloc, body) {
        Ok((open, rest)) => open.max_frame_size == Some(512) && rest == b"xy".as_slice(),
        Err(_) => false,
    }
}

/// So many bytes a read: the first frame is read, and of the second none is lost.
fn is_received(alloc: Global, most: usize) -> bool {
    let mut reader = IoReader::new(alloc, Counted::new(cut(FRAMES, most)));
    let first = frame(alloc, &mut reader);
    let is_refused = frame(alloc, &mut reader).is_none();
    let is_there = reader.bytes_consumed() == 25 && reader.at_hand() == 6;
    opens(alloc, first) && is_refused && is_there
}

#[test]
fn frames_are_received_as_a_whole(rt: HostRuntime) {
    for most in [1, 7, 64] {
        assert!(rt; is_received(rt.alloc(), most), "{most}");
    }
}
