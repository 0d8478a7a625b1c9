//! Bytes that were received and not consumed yet.

ghost use Rattle.std.specs.Prelude.{◌≡◌, ◌<◌, ◌≤◌, ◌+◌, ◌-◌, ◌*◌};
ghost use Rattle.std.specs.Prelude.{◌++◌, max, true, [], length};
ghost use Rattle.std.specs.Prelude.{take, drop, IfOk, IfSome, IsTrue, None};
ghost use Rattle.std.specs.Prelude.{MatchOption, false};
ghost use Rattle.std.specs.Io.KnownBytes.{IsAtEnd};
ghost use Rattle.amqp_read.specs.Asking.{AskedOnce};
ghost use Rattle.amqp_read.specs.Streaming.{Fronted, reads};

use crate::behind::read_behind;
use crate::few::Few;
use crate::greatest::Greatest;
use amqp_base::{Count, Source};
use std::alloc::Global;
use std::io::ErrorKind;
use std::marker::Model;

/// The most bytes that a source is asked for at once.
pub(crate) const PIECE: usize = 4096;

/// The least room that a vector which is short of it grows by.
const LEAST: usize = 64;

/// Received bytes in one vector; from an index on they are unread. A few that were received while
/// it was empty stand in place, so that small values need no memory here.
#[derive(Drop)]
pub(crate) struct Buffer {
    few: Few,
    bytes: Vec<u8>,
    start: usize,
    moved: Count,
    most: Greatest,
}

impl Model for Buffer {
    ghost use Rattle.std.specs.Prelude.{◌≡◌, ◌<◌, ◌≤◌, ◌+◌, ◌-◌};
    ghost use Rattle.std.specs.Prelude.{◌*◌, ◌++◌, drop, length};
    ghost use Rattle.std.specs.Vec.{vec_len, vec_capacity};
    ghost use Rattle.amqp_read.specs.Streaming.{Buffered};

    ghost Value = { Buffered };

    ghost view = { λ b. record {
      unread = b.few.bytes ++ drop b.start b.bytes.items;
      in_place = length b.few.bytes;
      room_in_place = b.few.room;
      length = length b.few.bytes + vec_len b.bytes;
      start = b.start;
      room = vec_capacity b.bytes - vec_len b.bytes;
      moved = b.moved.n;
      most = b.most.n;
    } };

    ghost invariant = { λ b. (b.start ≤ vec_len b.bytes)
        × (b.start ≡ vec_len b.bytes → vec_len b.bytes ≡ 0)
        × (vec_len b.bytes ≤ 2 * b.most.n)
        × (length b.few.bytes + (vec_len b.bytes - b.start) ≤ b.most.n)
        × (0 < length b.few.bytes → vec_len b.bytes ≡ 0) };
}

impl Buffer {
    /// Nothing was received.
    pub(crate) fn new(alloc: Global) -> Buffer
        ensures unread { result.unread ≡ [] }
        ensures counts { (result.moved + result.start ≡ 0) × (result.most ≡ 0) }
    {
        Buffer {
            few: Few::new(),
            bytes: Vec::new(alloc),
            start: 0,
            moved: Count::new(),
            most: Greatest::new(),
        }
    }

    /// How many bytes are unread.
    #[inline(always)]
    pub(crate) fn len(&self) -> usize
        ensures len { result ≡ length self.now.unread }
        ensures held { self.now.length ≤ 2 * self.now.most }
        ensures seen { length self.now.unread ≤ self.now.most }
    {
        self.few.len() + (self.bytes.len() - self.start)
    }

    /// The unread bytes.
    #[inline(always)]
    pub(crate) fn unread(&self) -> &[u8]
        ensures { result.now ≡ self.now.unread }
    {
        if self.few.len() > 0 {
            return self.few.as_slice();
        }
        self.in_vector()
    }

    /// How many of the unread bytes stand in the vector: all or none.
    #[inline(always)]
    pub(crate) fn len_in_vector(&self) -> usize
        ensures { result + self.now.in_place ≡ length self.now.unread }
    {
        self.bytes.len() - self.start
    }

    /// The unread bytes, where they stand in the vector; else none.
    #[inline(always)]
    pub(crate) fn in_vector(&self) -> &[u8]
        ensures bytes { result.now ≡ drop self.now.in_place self.now.unread }
        ensures none { 0 < self.now.in_place → result.now ≡ [] }
    {
        &self.bytes[self.start..]
    }

    /// The next `n` bytes, which stand in the vector.
    #[inline(always)]
    pub(crate) fn front_in_vector(&self, n: usize) -> &[u8]
        requires { n + self.now.in_place ≤ length self.now.unread }
        ensures { result.now ≡ take n self.now.unread }
    {
        &self.bytes[self.start..self.start + n]
    }

    /// Whether the unread bytes stand in place.
    #[inline(always)]
    pub(crate) fn is_in_place(&self) -> bool
        ensures some { IsTrue result → 0 < length self.now.unread }
        ensures none { result ≡ false → self.now.in_place ≡ 0 }
    {
        self.few.len() > 0
    }

    /// The next `n` bytes, where so many are unread.
    #[inline(always)]
    pub(crate) fn front(&self, n: usize) -> Option<&[u8]>
        ensures { MatchOption result (length self.now.unread < n) (λ b.
            (n ≤ length self.now.unread) × (b.now ≡ take n self.now.unread)) }
    {
        self.unread().get(..n)
    }

    /// The next `n` bytes were read.
    #[inline(always)]
    pub(crate) fn consume(&mut self, n: usize)
        requires { n ≤ length self.old.unread }
        ensures unread { self.new.unread ≡ drop n self.old.unread }
        ensures start { self.new.start ≤ self.old.start + n }
        ensures used_up { n ≡ length self.old.unread →
            (self.new.start ≡ 0) × (self.new.length ≡ 0) }
        ensures moved { self.new.moved ≡ self.old.moved }
        ensures most { self.new.most ≡ self.old.most }
    {
        if self.few.len() > 0 {
            self.few.consume(n);
            return;
        }
        self.consume_in_vector(n);
    }

    /// The same, where they stand in the vector.
    #[inline(always)]
    pub(crate) fn consume_in_vector(&mut self, n: usize)
        requires { n + self.old.in_place ≤ length self.old.unread }
        ensures unread { self.new.unread ≡ drop n self.old.unread }
        ensures start { self.new.start ≤ self.old.start + n }
        ensures used_up { n ≡ length self.old.unread →
            (self.new.start ≡ 0) × (self.new.length ≡ 0) }
        ensures moved { self.new.moved ≡ self.old.moved }
        ensures most { self.new.most ≡ self.old.most }
    {
        self.start += n;
        if self.start == self.bytes.len() {
            self.bytes.clear();
            self.start = 0;
        }
    }

    /// Finds room for `n` bytes more, and at once for as many as are held where `most` are to come:
    /// whether there is memory for it. Small vectors grow as every vector does, by 64 bytes at
    /// least, and large ones no further than for `most`.
    fn grow(&mut self, n: usize, most: usize) -> bool
        ensures others { self.new ≡ record self.old { room = self.new.room } }
        ensures found { IsTrue result → n ≤ self.new.room }
    {
        let held = self.bytes.len();
        let grown = if held < PIECE || most < held / 4 {
            self.bytes.reserve(n.max(LEAST))
        } else {
            self.bytes.reserve_exact(held.min(most).max(n))
        };
        grown.is_ok()
    }

    /// Finds room for `n` bytes more of `most` that are to come, and moves the unread bytes to the
    /// front where they begin in the second half: whether there is memory for it.
    #[inline(always)]
    pub(crate) fn make_room(&mut self, n: usize, most: usize) -> bool
        ensures front { Fronted self.old self.new }
        ensures first_half { 2 * self.new.start ≤ self.new.length }
        ensures seen { length self.new.unread ≤ self.new.most }
        ensures moved { self.new.moved + self.new.start ≤ self.old.moved + self.old.start }
        ensures found { IsTrue result → (n ≤ self.new.room) × (self.new.in_place ≡ 0) }
    {
        if self.few.len() > 0 {
            return self.settle(n, most);
        }
        if self.start > 0 {
            self.move_to_front();
        }
        n <= self.bytes.capacity() - self.bytes.len() || self.grow(n, most)
    }

    /// The same, where the unread bytes stand in place: they go into the vector.
    #[inline(never)]
    fn settle(&mut self, n: usize, most: usize) -> bool
        requires { 0 < self.old.in_place }
        ensures front { Fronted self.old self.new }
        ensures start { self.new.start ≡ 0 }
        ensures found { IsTrue result → (n ≤ self.new.room) × (self.new.in_place ≡ 0) }
    {
        let few = self.few.len();
        if !self.grow(n.saturating_add(few), most) {
            return false;
        }
        let _ = self.bytes.extend_from_slice(self.few.as_slice());
        self.few.consume(few);
        true
    }

    /// Moves the unread bytes to the front where they begin in the second half.
    fn move_to_front(&mut self)
        requires { self.old.in_place ≡ 0 }
        ensures front { Fronted self.old self.new }
        ensures in_vector { self.new.in_place ≡ 0 }
        ensures first_half { 2 * self.new.start ≤ self.new.length }
        ensures moved { self.new.moved + self.new.start ≤ self.old.moved + self.old.start }
    {
        let unread = self.bytes.len() - self.start;
        if self.start >= unread {
            self.bytes.copy_within(self.start.., 0);
            self.bytes.truncate(unread);
            self.start = 0;
            self.moved.ticks(unread);
        }
    }

    /// Keeps the few bytes that were received, in place, where nothing is unread.
    #[inline(always)]
    pub(crate) fn keep(&mut self, received: &[u8])
        requires none { self.old.unread ≡ [] }
        requires few { length received.now ≤ 64 }
        ensures unread { self.new.unread ≡ received.now }
        ensures moved { self.new.moved + self.new.start ≡ self.old.moved + self.old.start }
        ensures most { self.new.most ≡ max self.old.most (length self.new.unread) }
    {
        self.few.put(received);
        self.most.sees(received.len());
    }

    /// The same, out of line: of a block that a source gave in part.
    #[cold]
    #[inline(never)]
    pub(crate) fn keep_short(&mut self, received: &[u8])
        requires none { self.old.unread ≡ [] }
        requires few { length received.now ≤ 64 }
        ensures unread { self.new.unread ≡ received.now }
        ensures moved { self.new.moved + self.new.start ≡ self.old.moved + self.old.start }
        ensures most { self.new.most ≡ max self.old.most (length self.new.unread) }
    {
        self.keep(received)
    }

    /// Whether `n` bytes more find room in place: where none stands in the vector.
    #[inline(always)]
    pub(crate) fn has_room_in_place(&self, n: usize) -> bool
        ensures none { IsTrue result → length self.now.unread ≤ self.now.in_place }
        ensures room { IsTrue result → n ≤ self.now.room_in_place }
        ensures few { IsTrue result → length self.now.unread + n ≤ 64 }
    {
        self.bytes.is_empty() && self.few.has_room(n)
    }

    /// Keeps what was received, with the memory that holds it, where nothing is unread.
    pub(crate) fn take_over(&mut self, received: Vec<u8>)
        requires { self.old.unread ≡ [] }
        ensures unread { self.new.unread ≡ received.items }
        ensures start { self.new.start ≡ 0 }
        ensures moved { self.new.moved ≡ self.old.moved }
        ensures most { self.new.most ≡ max self.old.most (length self.new.unread) }
    {
        self.most.sees(received.len());
        self.start = 0;
        self.bytes = received;
    }

    /// All that is unread with the memory that holds it, where that is `n` bytes, many, and nothing
    /// stands in front of them.
    pub(crate) fn hand_over(&mut self, alloc: Global, n: usize) -> Option<Vec<u8>>
        ensures given { IfSome result (λ v.
            (v.items ≡ self.old.unread) × (length v.items ≡ n)) }
        ensures used_up { IfSome result (λ _. (self.new.unread ≡ [])
            × (self.new.start ≡ 0) × (self.new.length ≡ 0)) }
        ensures else_kept { result ≡ None → self.new ≡ self.old }
        ensures counts { (self.new.moved ≡ self.old.moved) × (self.new.most ≡ self.old.most) }
    {
        if n < PIECE || self.start != 0 || self.bytes.len() != n {
            return None;
        }
        let mut bytes = std::mem::replace(&mut self.bytes, Vec::new(alloc));
        bytes.shrink_to_fit();
        Some(bytes)
    }

    /// Asks a source once for some of `n` bytes and keeps what it gives: how many.
    pub(crate) fn receive<S: Source>(
        &mut self,
        source: &mut S,
        n: usize,
    ) -> Result<usize, ErrorKind>
        ensures asked { AskedOnce n
            (reads self.old.unread (S.remaining source.old) 0 (S.faults source.old)
            (S.last_fault source.old) (S.is_honest source.old) (S.origin source.old))
            (reads self.new.unread (S.remaining source.new) 0 (S.faults source.new)
            (S.last_fault source.new) (S.is_honest source.new) (S.origin source.new)) result }
        ensures end { IfOk result (λ got.
            got ≡ 0 → 0 < n → IsTrue (S.is_honest source.old) →
            IsAtEnd (S.remaining source.old)) }
        ensures moved { self.new.moved + self.new.start ≤ self.old.moved + self.old.start }
        ensures most { self.new.most ≡ max self.old.most (length self.new.unread) }
    {
        if self.has_room_in_place(n) {
            return self.receive_in_place(source, n);
        }
        self.receive_in_vector(source, n)
    }

    /// The same, where the bytes find room in place behind those that are unread.
    #[inline(always)]
    fn receive_in_place<S: Source>(&mut self, source: &mut S, n: usize) -> Result<usize, ErrorKind>
        requires none { length self.old.unread ≤ self.old.in_place }
        requires room { n ≤ self.old.room_in_place }
        ensures asked { AskedOnce n
            (reads self.old.unread (S.remaining source.old) 0 (S.faults source.old)
            (S.last_fault source.old) (S.is_honest source.old) (S.origin source.old))
            (reads self.new.unread (S.remaining source.new) 0 (S.faults source.new)
            (S.last_fault source.new) (S.is_honest source.new) (S.origin source.new)) result }
        ensures end { IfOk result (λ got.
            got ≡ 0 → 0 < n → IsTrue (S.is_honest source.old) →
            IsAtEnd (S.remaining source.old)) }
        ensures moved { self.new.moved + self.new.start ≤ self.old.moved + self.old.start }
        ensures most { self.new.most ≡ max self.old.most (length self.new.unread) }
    {
        match self.few.receive(source, n) {
            Ok(got) => {
                self.most.sees(self.few.len());
                Ok(got)
            }
            Err(kind) => Err(kind),
        }
    }

    /// The same, where they go into the vector. Memory is asked for first.
    #[inline(never)]
    #[tactic(auto, unfolding(amqp_base::specs::Faults::refusal_of))]
    fn receive_in_vector<S: Source>(&mut self, source: &mut S, n: usize) -> Result<usize, ErrorKind>
        ensures asked { AskedOnce n
            (reads self.old.unread (S.remaining source.old) 0 (S.faults source.old)
            (S.last_fault source.old) (S.is_honest source.old) (S.origin source.old))
            (reads self.new.unread (S.remaining source.new) 0 (S.faults source.new)
            (S.last_fault source.new) (S.is_honest source.new) (S.origin source.new)) result }
        ensures end { IfOk result (λ got.
            got ≡ 0 → 0 < n → IsTrue (S.is_honest source.old) →
            IsAtEnd (S.remaining source.old)) }
        ensures moved { self.new.moved + self.new.start ≤ self.old.moved + self.old.start }
        ensures most { self.new.most ≡ max self.old.most (length self.new.unread) }
    {
        let piece = n.min(PIECE);
        if !self.make_room(piece, n) {
            return Err(ErrorKind::OutOfMemory);
        }
        let have = self.bytes.len();
        let Some(wanted) = have.checked_add(piece) else {
            return Err(ErrorKind::OutOfMemory);
        };
        if self.bytes.resize(wanted, 0).is_err() {
            return Err(ErrorKind::OutOfMemory);
        }
        match read_behind(source, &mut self.bytes, have) {
            Ok(got) => {
                self.bytes.truncate(have + got);
                self.most.sees(have + got - self.start);
                Ok(got)
            }
            Err(kind) => {
                self.bytes.truncate(have);
                Err(kind)
            }
        }
    }
}
