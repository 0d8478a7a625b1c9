//! A caller of each law of the wire: what a crate above `amqp_base` can prove by it. Nothing here
//! does anything at run time.
#![tactic(auto)]

ghost use Rattle.std.specs.Prelude.{◌≡◌, ℕ, ◌*◌, ◌≤◌, List, ◌++◌, length};
ghost use Rattle.std.specs.Prelude.{take, Some};
ghost use Rattle.amqp_base.specs.Item.{Item, scalar, uint, Capped, items};
ghost use Rattle.amqp_base.specs.Wire.{Front, Wire, lenient, strict, bare};
ghost use Rattle.amqp_base.specs.Canon.{canon};
ghost use Rattle.amqp_base.specs.Raw.{raw};
ghost use Rattle.amqp_base.specs.Laws.{AreBytes, Usual, IsTwiceDescribed};
ghost use Rattle.amqp_base.specs.PlainArrays.{PlainArrays};
ghost use Rattle.amqp_base.specs.declared.shape.Setting.TheVariants.{Plain};
ghost use Rattle.amqp_base.specs.Typing.{all_same};
ghost use Rattle.std.specs.BTreeMap.{BTreeMap as Entries};
ghost use Rattle.std.specs.declared.vec.Vec.{Vec};
ghost use Rattle.std.specs.declared.string.String.{String};
ghost use Rattle.std.specs.declared.alloc.Global.{Global};

use amqp_base::{Typed, laws};
use std::collections::BTreeMap;

/// Where a uint stands at the front of bytes, every item that stands there is that uint.
pub fn one_uint(_bytes: &[u8])
    ensures { (v : ℕ) (i : Item) (m n : ℕ) →
        Front lenient bare _bytes.now (scalar (uint v)) m →
        Front lenient bare _bytes.now i n → (scalar (uint v)) ≡ i }
{
    laws::one_front();
}

/// Where the uint 5 stands in five bytes, nothing stands in the first four.
pub fn cut(_bytes: &[u8])
    ensures { (j : Item) (k : ℕ) → Front lenient bare _bytes.now (scalar (uint 5)) 5 →
        Front lenient bare (take 4 _bytes.now) j k → ⊥ }
{
    laws::cut_short();
}

/// A canonical text is a strict form, and a wire form where no count is too high.
pub fn written_is_legal()
    ensures strict { (i : Item) (b : List ℕ) → canon i ≡ Some b → Wire strict bare b i }
    ensures wire { (i : Item) (b : List ℕ) → canon i ≡ Some b → Capped i →
        Wire lenient bare b i }
{
    laws::canon_strict();
}

/// Two uints with one text are one.
pub fn one_text()
    ensures { (m n : ℕ) (b : List ℕ) → canon (scalar (uint m)) ≡ Some b →
        canon (scalar (uint n)) ≡ Some b → scalar (uint m) ≡ scalar (uint n) }
{
    laws::canon_one();
}

/// A strict text is skipped exactly, where its value isn't described twice.
pub fn skipped()
    ensures { (i : Item) (b y : List ℕ) → Wire strict bare b i →
        (IsTwiceDescribed i → ⊥) →
        raw (b ++ y) ≡ Some (length b) }
{
    laws::raw_agrees();
}

/// So a text that was written is skipped exactly.
pub fn written_is_skipped()
    ensures { (i : Item) (b y : List ℕ) → canon i ≡ Some b →
        (IsTwiceDescribed i → ⊥) →
        raw (b ++ y) ≡ Some (length b) }
{
    laws::canon_strict();
    laws::raw_agrees();
}

/// No strict form of a usual item is shorter than what is written.
pub fn shortest()
    ensures { (i : Item) (t b : List ℕ) → Usual i → canon i ≡ Some t → AreBytes b →
        Wire strict bare b i → length t ≤ length b }
{
    laws::canon_shortest();
}

/// What is read from bytes has few items.
pub fn bounded(_bytes: &[u8])
    ensures { (i : Item) (n : ℕ) → AreBytes _bytes.now → Front lenient bare _bytes.now i n →
        items i ≤ 16384 * n }
{
    laws::items_bounded();
}

/// And fewer, where no array has described elements.
pub fn bounded_plain(_bytes: &[u8])
    ensures { (i : Item) (n : ℕ) → AreBytes _bytes.now → PlainArrays i →
        Front lenient bare _bytes.now i n → items i ≤ 8192 * n }
{
    laws::items_bounded_plain();
}

/// A text that was written is read again, whatever follows it.
pub fn read_again()
    ensures { (i : Item) (b rest : List ℕ) → canon i ≡ Some b → Capped i →
        Front lenient bare (b ++ rest) i (length b) }
{
    laws::canon_front();
}

/// What is written for a list of strings is read as that list.
pub fn strings_are_read_back()
    ensures { (v : Vec (String Global) Global) (b rest : List ℕ) →
        canon (⟦<Vec<String> as Typed>⟧.meaning.item v Plain) ≡ Some b →
        Capped (⟦<Vec<String> as Typed>⟧.meaning.item v Plain) →
        ⟦<Vec<String> as Typed>⟧.meaning.means
        (⟦<Vec<String> as Typed>⟧.meaning.item v Plain) v }
{
    laws::round_trip::<Vec<String>>();
}

/// What is written for a map is read as that map: its keys differ, as `len` says.
pub fn map_is_read_back(_map: &BTreeMap<u32, u32>)
    ensures { (b rest : List ℕ) →
        canon (⟦<BTreeMap<u32, u32> as Typed>⟧.meaning.item _map.now Plain) ≡ Some b →
        Capped (⟦<BTreeMap<u32, u32> as Typed>⟧.meaning.item _map.now Plain) →
        ⟦<BTreeMap<u32, u32> as Typed>⟧.meaning.means
        (⟦<BTreeMap<u32, u32> as Typed>⟧.meaning.item _map.now Plain) _map.now }
{
    let _len = _map.len();
    laws::round_trip::<BTreeMap<u32, u32>>();
}

/// Two maps of numbers that one item means have the same entries.
pub fn one_map()
    ensures { (v w : Entries ℕ ℕ) → ⟦<BTreeMap<u32, u32> as Typed>⟧.meaning.same v w →
        all_same (λ (p q : ℕ × ℕ). (p.0 ≡ q.0) × (p.1 ≡ q.1)) v.entries w.entries }
{
    laws::same_entries::<u32, u32>();
}
