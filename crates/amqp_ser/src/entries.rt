//! Entries of a map, many at a time.

ghost use Rattle.std.specs.Prelude.{◌≡◌, ◌≢◌, ◌∷◌, ◌++◌, [], false};
ghost use Rattle.std.specs.Prelude.{List, None, IsTrue, IfErr, IfSome, OnOk, length, take};
ghost use Rattle.std.specs.Borrow.{Bor};
ghost use Rattle.std.specs.Iterator.{Drains, IsFinite, Yields};
ghost use Rattle.amqp_base.specs.Item.{Item};
ghost use Rattle.amqp_base.specs.Shapes.{whole};
ghost use Rattle.amqp_write.specs.State.{unmarked};
ghost use Rattle.amqp_write.specs.declared.pass.Opened.TheVariants.{Buffered as IsBuffered};
ghost use Rattle.amqp_write.specs.Appending.{Appended, as_error};
ghost use Rattle.amqp_write.specs.ManyTexts.{CountsTexts, HaveTextsOf, PutsText};
ghost use Rattle.amqp_ser.specs.State.{State};
ghost use Rattle.amqp_ser.specs.Law.{Refused};
ghost use Rattle.amqp_ser.specs.Compound.{Open, map_state, Holds, BeginsWith, awaits_value};
ghost use Rattle.amqp_ser.specs.Gathered.{HasNone, Gathers, PutsTwo, entry_items};

use crate::{MapSerializer, Primitive, Serialize, Serializer};
use amqp_base::{Error, Pass, Setting, Shape, Sink};
use amqp_write::{
    Outside, Refusal, no_memory, number_len, put_number, put_string, refused, string_len,
};
use std::alloc::Global;

/// Room for the texts of some entries.
const ROOM: usize = 512;

/// Texts of keys and values at the front of a block that weren't written yet: where they end, and
/// how many they are.
#[derive(Clone, Copy)]
struct Gathered {
    end: usize,
    count: usize,
}

impl Gathered {
    /// None yet.
    #[inline(always)]
    fn none() -> Gathered
        ensures { HasNone result }
    {
        Gathered { end: 0, count: 0 }
    }

    /// Puts an entry's texts behind the others, where parts are taken as they come. None where one
    /// of the two isn't gathered, isn't short, or finds no room.
    #[inline(always)]
    fn put<K: Serialize, V: Serialize>(
        self,
        takes: bool,
        block: &mut [u8],
        key: &K,
        value: &V,
    ) -> Option<Gathered>
        ensures more { IfSome result (λ more. (s : State) (xs : List Item) (q : Open) →
            Gathers s xs q self block.old →
            Gathers s (xs ++ K.meaning.item key.now Setting.Plain
            ∷ V.meaning.item value.now Setting.Plain ∷ []) q more block.new) }
        ensures none { result ≡ None → (s : State) (xs : List Item) (q : Open) →
            Gathers s xs q self block.old → Gathers s xs q self block.new }
    {
        if !takes {
            return None;
        }
        let count = self.count.checked_add(2)?;
        let end = put_two(key, value, block, self.end)?;
        Some(Gathered { end, count })
    }
}

/// Puts both texts into the block from `at` on, one behind the other: where the next may begin.
/// None where one of them isn't gathered, isn't short, or finds no room.
#[inline(always)]
fn put_two<K: Serialize, V: Serialize>(
    key: &K,
    value: &V,
    block: &mut [u8],
    at: usize,
) -> Option<usize>
    ensures texts { IfSome result (λ end. PutsTwo (K.meaning.item key.now Setting.Plain)
        (V.meaning.item value.now Setting.Plain) at block.old end block.new) }
    ensures none { result ≡ None → take at block.new ≡ take at block.old }
{
    let middle = put_text(key, block, at)?;
    let end = put_text(value, block, middle)?;
    Some(end)
}

/// Puts the value's text outside arrays into the block from `at` on: where the next may begin. None
/// where it isn't gathered, isn't short, or finds no room; then nothing was put.
#[inline(always)]
fn put_text<T: Serialize>(value: &T, block: &mut [u8], at: usize) -> Option<usize>
    ensures text { IfSome result (λ end. PutsText unmarked
        (T.meaning.item value.now Setting.Plain) at block.old end block.new) }
    ensures none { result ≡ None → block.new ≡ block.old }
{
    match value.as_primitive() {
        Primitive::Int(n) => put_number::<Outside, i32>(n, block, at),
        Primitive::Uint(n) => put_number::<Outside, u32>(n, block, at),
        Primitive::Ulong(n) => put_number::<Outside, u64>(n, block, at),
        Primitive::String(text) => put_string(text, block, at),
        Primitive::Other => None,
    }
}

/// The length of both texts, where they are gathered and there are such.
#[inline(always)]
fn two_lengths<K: Serialize, V: Serialize>(key: &K, value: &V) -> Option<usize>
    ensures texts { IfSome result (λ n. HaveTextsOf unmarked (K.meaning.item key.now Setting.Plain
        ∷ V.meaning.item value.now Setting.Plain ∷ []) n) }
{
    let one = text_len(key)?;
    let two = text_len(value)?;
    Some(one.saturating_add(two))
}

/// The length of the value's text outside arrays, where it is gathered and has one.
#[inline(always)]
fn text_len<T: Serialize>(value: &T) -> Option<usize>
    ensures text { IfSome result (λ n.
        HaveTextsOf unmarked (T.meaning.item value.now Setting.Plain ∷ []) n) }
{
    match value.as_primitive() {
        Primitive::Int(n) => Some(number_len::<Outside, i32>(n)),
        Primitive::Uint(n) => Some(number_len::<Outside, u32>(n)),
        Primitive::Ulong(n) => Some(number_len::<Outside, u64>(n)),
        Primitive::String(text) => string_len(text),
        Primitive::Other => None,
    }
}

/// The length of the texts of all keys and values, as far as a usize counts, where all are gathered
/// and have such.
#[inline(always)]
fn lengths<'m, K: Serialize + 'm, V: Serialize + 'm, I>(entries: I) -> Option<usize>
where
    I: Iterator<Item = (&'m K, &'m V)> + Drop,
    requires can { I.can_next entries }
    requires ends { IsFinite (I.remaining entries) }
    ensures texts { IfSome result (λ n. (es : List (Bor K × Bor V)) ×
        Drains I.next_gives entries es ×
        HaveTextsOf unmarked (entry_items K.meaning V.meaning es) n) }
{
    let mut sum: usize = 0;
    for (key, value) in entries {
        match two_lengths(key, value) {
            Some(len) => sum = sum.saturating_add(len),
            None => return None,
        }
    }
    Some(sum)
}

impl<W: Sink> Serializer<W> {
    /// Appends texts, or ends.
    #[inline(always)]
    fn append(&mut self, texts: &[u8]) -> Result<(), Refusal>
        ensures { Appended self.old.state texts.now (as_error result) self.new.state }
    {
        self.place.append(&mut self.writer, texts)
    }

    /// Counts texts of so many bytes, where the writer only counts. Whether it did.
    #[inline(always)]
    fn counts_texts(&mut self, len: usize) -> bool
        ensures counted { IsTrue result → CountsTexts len self.old.state self.new.state }
        ensures same { result ≡ false → self.new ≡ self.old }
    {
        self.place.counts_texts(&mut self.writer, len)
    }
}

impl<'a, W: Sink> MapSerializer<'a, W> {
    /// Counts the entries of a map that has none yet, so many of them, where the writer only counts
    /// and all are gathered. Whether it did; else nothing was done.
    #[inline(always)]
    pub(crate) fn counts_entries<'m, K: Serialize + 'm, V: Serialize + 'm, I>(
        &mut self,
        entries: I,
        count: usize,
    ) -> bool
    where
        I: Iterator<Item = (&'m K, &'m V)> + Drop,
        requires can { I.can_next entries }
        requires ends { IsFinite (I.remaining entries) }
        ensures same_reference { self.new.ser.ghost_name ≡ self.old.ser.ghost_name }
        ensures counted { IsTrue result → (es : List (Bor K × Bor V)) ×
            Drains I.next_gives entries es × (count ≡ length es →
            (s : State) → Holds s Shape.Map [] (map_state self.old) →
            Holds s Shape.Map (entry_items K.meaning V.meaning es) (map_state self.new)) }
        ensures same { result ≡ false → self.new ≡ self.old }
    {
        if !self.only_counts() {
            return false;
        }
        let Some(count) = count.checked_mul(2) else {
            return false;
        };
        let Some(len) = lengths(entries) else {
            return false;
        };
        if !self.ser.counts_texts(len) {
            return false;
        }
        self.ser.set_ended(true);
        self.parts.count = count;
        true
    }

    /// Whether its parts stand outside arrays on a serializer that only counts.
    #[inline(always)]
    fn only_counts(&self) -> bool
        ensures direct { IsTrue result → self.now.parts.opened ≢ IsBuffered }
        ensures outside { IsTrue result → self.now.parts.shape ≢ Shape.Array }
    {
        let ser = &*self.ser;
        match ser.writer.pass() {
            Pass::Measures => self.stands_outside(),
            _ => false,
        }
    }

    /// Whether its parts stand outside arrays on a serializer that takes them as they come.
    #[inline(always)]
    fn takes_parts(&self) -> bool {
        let ser = &*self.ser;
        match ser.writer.pass() {
            Pass::Writes => self.stands_outside(),
            _ => false,
        }
    }

    /// Writes the entries of a map that has none yet, many at a time as far as they are gathered.
    #[inline(always)]
    pub(crate) fn write_entries<'m, K: Serialize + 'm, V: Serialize + 'm, I>(
        &mut self,
        alloc: Global,
        entries: I,
    ) -> Result<(), Error>
    where
        I: Iterator<Item = (&'m K, &'m V)> + Drop,
        requires can { I.can_next entries }
        requires ends { IsFinite (I.remaining entries) }
        ensures same_reference { self.new.ser.ghost_name ≡ self.old.ser.ghost_name }
        ensures ok { OnOk result ((es : List (Bor K × Bor V)) × Drains I.next_gives entries es ×
            ((s : State) → Holds s Shape.Map [] (map_state self.old) →
            Holds s Shape.Map (entry_items K.meaning V.meaning es) (map_state self.new))) }
        ensures err { IfErr result (λ e. (es : List (Bor K × Bor V)) × (rest : I) ×
            Yields I.next_gives entries es rest × ((s : State) (all : List Item) →
            Holds s Shape.Map [] (map_state self.old) →
            BeginsWith all (entry_items K.meaning V.meaning es) → awaits_value all ≡ false →
            Refused s (whole Shape.Map all) e self.new.ser.now.state)) }
    {
        let takes = self.takes_parts();
        let mut block = [0u8; ROOM];
        let mut gathered = Gathered::none();
        for (key, value) in entries {
            match gathered.put(takes, &mut block, key, value) {
                Some(more) => {
                    gathered = more;
                    continue;
                }
                None => {}
            }
            match self.hand_on(gathered, &block) {
                Ok(()) => gathered = Gathered::none(),
                Err(e) => return Err(e),
            }
            match gathered.put(takes, &mut block, key, value) {
                Some(more) => {
                    gathered = more;
                    continue;
                }
                None => {}
            }
            match self.serialize_entry(alloc, key, value) {
                Ok(()) => {}
                Err(e) => return Err(e),
            }
        }
        self.hand_on(gathered, &block)
    }

    /// Writes what is gathered, and counts it behind the parts.
    #[inline(always)]
    fn hand_on(&mut self, gathered: Gathered, block: &[u8]) -> Result<(), Error>
        ensures same_reference { self.new.ser.ghost_name ≡ self.old.ser.ghost_name }
        ensures ok { OnOk result ((s : State) (xs : List Item) →
            Gathers s xs (map_state self.old) gathered block.now →
            Holds s Shape.Map xs (map_state self.new)) }
        ensures err { IfErr result (λ e. (s : State) (xs all : List Item) →
            Gathers s xs (map_state self.old) gathered block.now →
            Refused s (whole Shape.Map all) e self.new.ser.now.state) }
    {
        if gathered.count == 0 {
            return Ok(());
        }
        if self.parts.buffer.has_ended() {
            return Err(refused(Refusal::InvalidValue));
        }
        if !self.stands_outside() {
            return Err(no_memory());
        }
        let count = match self.parts.count.checked_add(gathered.count) {
            Some(count) => count,
            None => return Err(no_memory()),
        };
        self.ser.set_ended(false);
        let end = gathered.end.min(block.len());
        match self.ser.append(&block[..end]) {
            Ok(()) => {}
            Err(e) => return Err(refused(e)),
        }
        self.ser.set_ended(true);
        self.parts.count = count;
        Ok(())
    }
}
